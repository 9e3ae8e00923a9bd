// A macro that was read, whose parts lie in the text that it was read from.
ghost use Rattle.std.specs.Prelude.{[], length, option_map, true, unwrap_or, vec_capacity, vec_len, None, ◌+◌, ◌++◌, ◌≡◌, ◌≤◌};
ghost use Rattle.std.specs.List.{flat_map};
ghost use Rattle.rdlpp_scan.specs.Continuations.{as_read};
ghost use Rattle.rdlpp_define.specs.Define.{drafted, name_fault, with_body};
ghost use Rattle.rdlpp_define.specs.Macros.{formal_bytes, formals_of, list_size, AreSoundFormals, IsSoundMacro};
ghost use Rattle.rdlpp_define.specs.NewMacro.{list_formals, IsList};
ghost use Rattle.rdlpp_define.specs.Plain.{is_plain_macro};

use crate::fault::{DefineFault, lexical};
use crate::formals::append_list;
use rdlpp_scan::{append_trimmed, trimmed_len};
use std::marker::Model;

/// A macro that isn't stored. Its name, its formals and its body lie in the text that it was read from.
#[derive(Drop)]
pub struct NewMacro<'a> {
    name: &'a [u8],
    arity: Option<usize>,
    // The text of the formal list after its `(`, where it has formals, and how many bytes they are.
    list: &'a [u8],
    list_len: usize,
    // The text that the body is read from: of a logical line, or as it stands.
    is_logical: bool,
    text: &'a [u8],
    body_len: usize,
}

impl<'a> Model for NewMacro<'a> {
    ghost use Rattle.rdlpp_define.specs.Macros.{Macro};
    ghost use Rattle.rdlpp_define.specs.NewMacro.{new_macro, IsNew};

    ghost Value = { Macro };

    ghost view = { λ m. new_macro m.name.now m.arity m.list.now m.is_logical m.text.now };

    ghost invariant = { λ m. IsNew m.name.now m.arity m.list.now m.list_len m.is_logical m.text.now m.body_len };
}

impl<'a> NewMacro<'a> {
    /// Its name. A macro that was read is sound: a name of 1 to 128 bytes that isn't that of a directive, formals with distinct
    /// names, and a body and default texts that are read whole, without `//` comments.
    pub fn name(&self) -> &[u8]
        ensures name { result.now ≡ self.now.name }
        ensures sound { IsSoundMacro self.now }
    {
        self.name
    }

    /// How many formals it has; `None` where it has no list.
    pub fn arity(&self) -> Option<usize>
        ensures { result ≡ option_map length self.now.formals }
    {
        self.arity
    }

    /// How many bytes its formals have in a table.
    pub fn formals_len(&self) -> usize
        ensures { result ≡ list_size self.now }
    {
        self.list_len
    }

    /// How many bytes its body has.
    pub fn body_len(&self) -> usize
        ensures { result ≡ length self.now.body }
    {
        self.body_len
    }

    /// Appends its formals, for which `to` has room, as they lie in a table: of each its name, `=` and its default text where it
    /// has one, and a comma, from which they can be told again.
    pub fn append_formals(&self, to: &mut Vec<u8>)
        requires room { vec_len to.old + list_size self.now ≤ vec_capacity to.old }
        ensures items { to.new.items ≡ to.old.items ++ flat_map formal_bytes (formals_of self.now) }
        ensures plain { is_plain_macro self.now ≡ true }
        ensures capacity { vec_capacity to.new ≡ vec_capacity to.old }
    {
        if self.arity.unwrap_or(0) > 0 {
            append_list(to, self.list);
        }
    }

    /// Appends its body, for which `to` has room.
    pub fn append_body(&self, to: &mut Vec<u8>)
        requires room { vec_len to.old + length self.now.body ≤ vec_capacity to.old }
        ensures items { to.new.items ≡ to.old.items ++ self.now.body }
        ensures capacity { vec_capacity to.new ≡ vec_capacity to.old }
    {
        append_trimmed(to, self.text, self.is_logical, false, self.body_len);
    }
}

// A macro of which the name and the formals are known, with the body of a text.
pub(crate) fn with_body<'a>(
    name: &'a [u8],
    arity: Option<usize>,
    list: &'a [u8],
    list_len: usize,
    is_logical: bool,
    text: &'a [u8],
) -> Result<NewMacro<'a>, DefineFault>
    requires named { name_fault name.now ≡ None }
    requires sound { AreSoundFormals (unwrap_or (list_formals arity list.now) []) }
    requires listed { IsList arity list.now list_len }
    ensures { drafted result ≡ with_body name.now (list_formals arity list.now) (as_read is_logical text.now) }
{
    match trimmed_len(text, is_logical, false) {
        Ok(body) => Ok(NewMacro {
            name,
            arity,
            list,
            list_len,
            is_logical,
            text,
            body_len: body.len,
        }),
        Err(fault) => Err(DefineFault::without_word(lexical(fault))),
    }
}
