//! Processing instructions and the XML declaration.

ghost use Rattle.std.specs.Prelude.{◌≡◌, ◌≤◌, chars, length, IfOk};
ghost use Rattle.markup_parts.specs.Outcomes.{Reads, outcome};
ghost use Rattle.markup_parts.specs.Runs.{is_allowed};
ghost use Rattle.markup_tags.specs.Instructions as named;
ghost use Rattle.markup_tags.specs.Instructions.{IsInstruction, IsInstructionRest, IsFirstInstruction};

use markup_parts::{Allowed, Stop, expect, first, is_space, is_word, name, up_to};

/// The text behind an instruction or a declaration, from behind its target.
fn instruction_rest(text: &str, allowed: Allowed) -> Result<&str, Stop>
    ensures read { Reads (IsInstructionRest (is_allowed allowed)) (chars text.now) (outcome (λ _. tt) (λ rest. chars rest.now) result) }
    ensures shorter { IfOk result (λ rest. length rest.now ≤ length text.now) }
{
    let Some((c, rest)) = first(text) else {
        return Err(Stop::Cut);
    };
    if !is_space(c) {
        return expect(text, "?>");
    }
    match up_to(rest, "?>", allowed) {
        Err(stop) => Err(stop),
        Ok((_, rest)) => Ok(rest),
    }
}

/// Whether an instruction may not have this target: xml, in any case.
fn is_reserved(target: &str) -> bool
    ensures { result ≡ named.is_reserved (chars target.now) }
{
    target.eq_ignore_ascii_case("xml")
}

/// The text behind a processing instruction, from behind its `<?`.
pub fn instruction(text: &str) -> Result<&str, Stop>
    ensures read { Reads IsInstruction (chars text.now) (outcome (λ _. tt) (λ rest. chars rest.now) result) }
    ensures shorter { IfOk result (λ rest. length rest.now ≤ length text.now) }
{
    let (target, rest) = match name(text) {
        Err(stop) => return Err(stop),
        Ok(found) => found,
    };
    if is_reserved(target) {
        return Err(Stop::Broken);
    }
    instruction_rest(rest, Allowed::Legal)
}

/// The text behind a processing instruction or an XML declaration, from behind its `<?`.
pub fn declaration(text: &str) -> Result<&str, Stop>
    ensures read { Reads IsFirstInstruction (chars text.now) (outcome (λ _. tt) (λ rest. chars rest.now) result) }
    ensures shorter { IfOk result (λ rest. length rest.now ≤ length text.now) }
{
    let (target, rest) = match name(text) {
        Err(stop) => return Err(stop),
        Ok(found) => found,
    };
    if is_word(target, "xml") {
        return instruction_rest(rest, Allowed::Any);
    }
    if is_reserved(target) {
        return Err(Stop::Broken);
    }
    instruction_rest(rest, Allowed::Legal)
}
