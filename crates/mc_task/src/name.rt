//! The name of a task.
ghost use Rattle.std.specs.Prelude.{◌≡◌, ◌≤◌, length, IsSome, IfSome, IsTrue, ◌↔◌};
ghost use Rattle.std.specs.List.{list_all};
ghost use Rattle.mc_task.specs.NameForm.{is_name, is_name_byte};

use std::marker::Model;

/// A task's name: 1 to 32 bytes, each an ASCII letter, a digit, `_` or `-`. Contracts see the bytes.
#[derive(Clone, Copy, Debug, PartialEq, Eq)]
pub struct Name {
    array: [u8; 32],
    len: usize,
}

impl Model for Name {
    ghost use Rattle.std.specs.Prelude.{ℕ, List};

    ghost Value = { List ℕ };

    ghost use Rattle.mc_task.specs.Name.{name_view, IsName, from_bytes};

    ghost view = { name_view };

    ghost invariant = { IsName };

    ghost inverse = { from_bytes };
}

impl Name {
    /// The name with these bytes, or `None` exactly if they do not have the form of a name.
    pub fn new(bytes: &[u8]) -> Option<Name>
        ensures form { IsSome result ↔ IsTrue (is_name bytes.now) }
        ensures value { IfSome result (λ name. name ≡ bytes.now) }
    {
        if !is_name(bytes) {
            return None;
        }
        Some(Name {
            array: padded_array(bytes),
            len: bytes.len(),
        })
    }

    /// The name's bytes.
    pub fn bytes(&self) -> &[u8]
        ensures value { result.now ≡ self.now }
        ensures form { IsTrue (is_name self.now) }
    {
        &self.array[..self.len]
    }
}

ghost use Rattle.mc_task.specs.Name.{padded};

// The bytes, filled up with 0 to 32 bytes.
fn padded_array(bytes: &[u8]) -> [u8; 32]
    requires { length bytes.now ≤ 32 }
    ensures { result ≡ padded bytes.now }
{
    let mut array = [0; 32];
    array[..bytes.len()].copy_from_slice(bytes);
    array
}

fn is_name(bytes: &[u8]) -> bool
    ensures { result ≡ is_name bytes.now }
{
    1 <= bytes.len() && bytes.len() <= 32 && are_name_bytes(bytes)
}

fn are_name_bytes(bytes: &[u8]) -> bool
    ensures { result ≡ list_all is_name_byte bytes.now }
{
    bytes.iter().all(|b| is_name_byte(*b))
}

fn is_name_byte(b: u8) -> bool
    ensures { result ≡ is_name_byte b }
{
    b.is_ascii_alphanumeric() || b == b'_' || b == b'-'
}
