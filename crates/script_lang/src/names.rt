//! Names of jobs.

ghost use Rattle.std.specs.Prelude.{◌≡◌, IsTrue, ◌↔◌, IfOk};
ghost use Rattle.std.specs.List.{All};
ghost use Rattle.desk_model.specs.Script.{IsJobName, IsNameChar};
ghost use Rattle.script_lang.specs.Parts.{Finds};

use doc_model::Name;
use std::alloc::{AllocError, Global};

/// The name that bytes are: one to sixteen letters a to z and digits.
pub(crate) fn read_name(alloc: Global, bytes: &[u8]) -> Result<Option<Name>, AllocError>
    ensures { IfOk result (Finds (λ name. IsJobName name × (bytes.now ≡ name))) }
{
    if is_job_name(bytes) {
        let name = own_name(alloc, bytes)?;
        Ok(Some(name))
    } else {
        Ok(None)
    }
}

fn is_job_name(bytes: &[u8]) -> bool
    ensures { IsTrue result ↔ IsJobName bytes.now }
{
    if bytes.is_empty() {
        return false;
    }
    if bytes.len() > 16 {
        return false;
    }
    are_name_bytes(bytes)
}

fn are_name_bytes(bytes: &[u8]) -> bool
    ensures { IsTrue result ↔ All IsNameChar bytes.now }
{
    bytes.iter().all(|byte| is_name_byte(*byte))
}

fn is_name_byte(byte: u8) -> bool
    ensures { IsTrue result ↔ IsNameChar byte }
{
    byte.is_ascii_lowercase() || byte.is_ascii_digit()
}

/// A name of its own with these characters, each of which is one byte.
fn own_name(alloc: Global, bytes: &[u8]) -> Result<Name, AllocError>
    requires { IsJobName bytes.now }
    ensures { IfOk result (λ own. own ≡ bytes.now) }
{
    let name = str::from_utf8(bytes).unwrap();
    Ok(Name::from_list(String::from_str(alloc, name)?))
}
