//! Paragraphs that are read one after another.

ghost use Rattle.std.specs.Prelude.{◌≡◌, ◌≤◌, ◌++◌, ◌∷◌, take, drop, length, IfOk};

use round_pars::RoundPar;
use std::alloc::AllocError;

/// The paragraphs that are left.
#[derive(Debug, Drop)]
pub(crate) struct ParsLeft<'a> {
    pub(crate) pars: &'a [RoundPar<'a>],
}

impl<'a> ParsLeft<'a> {
    /// The next one.
    pub(crate) fn next_par(&mut self) -> Result<&'a RoundPar<'a>, AllocError>
        ensures { IfOk result (λ par. par.now ∷ self.new.pars.now ≡ self.old.pars.now) }
    {
        let [par, behind @ ..] = self.pars else {
            return Err(AllocError);
        };
        self.pars = behind;
        Ok(par)
    }

    /// The next ones, of a count.
    pub(crate) fn next_pars(&mut self, count: usize) -> Result<&'a [RoundPar<'a>], AllocError>
        ensures pars { IfOk result (λ own. own.now ++ self.new.pars.now ≡ self.old.pars.now) }
        ensures count { IfOk result (λ own. length own.now ≡ count) }
    {
        let pars = self.pars;
        if pars.len() < count {
            return Err(AllocError);
        }
        self.pars = behind(pars, count);
        Ok(front(pars, count))
    }
}

/// The first ones, of a count.
fn front<'a>(pars: &'a [RoundPar<'a>], count: usize) -> &'a [RoundPar<'a>]
    requires { count ≤ length pars.now }
    ensures { result.now ≡ take count pars.now }
{
    &pars[..count]
}

/// Those behind them.
fn behind<'a>(pars: &'a [RoundPar<'a>], count: usize) -> &'a [RoundPar<'a>]
    requires { count ≤ length pars.now }
    ensures { result.now ≡ drop count pars.now }
{
    &pars[count..]
}
