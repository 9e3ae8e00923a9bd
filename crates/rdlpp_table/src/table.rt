// The table of macros: a list of bytes, one of entries and an index by name, all reserved when the table is made.
ghost use Rattle.std.specs.Prelude.{◌≡◌, ◌≢◌, ◌<◌, ◌≤◌, ◌==◌, [], length, IfOk, IfSome, IfNone, Some, None, is_some, option_map, OnErr, ◌+◌};
ghost use Rattle.rdlpp_table.specs.Index.{IsCounted};
ghost use Rattle.rdlpp_define.specs.Limits.{AreInRange};
ghost use Rattle.rdlpp_table.specs.ExpansionPoints.{point_in};
ghost use Rattle.rdlpp_define.specs.Table.{macro_named, without, TableView, IsSound, formal_at, formal_named, macro_at, place_named};
ghost use Rattle.rdlpp_table.specs.Store.{table_bytes, entry_end, formals_read, macro_in, AreStoredFormals};
ghost use Rattle.rdlpp_scan.specs.SourceTokens.{logical_len};
ghost use Rattle.rdlpp_define.specs.Defined.{define_of, observed, set_of, stored};
ghost use Rattle.rdlpp_table.specs.PointCache.{cached_points};
ghost use Rattle.rdlpp_define.specs.Macros.{formals_of};

use crate::buckets::bucket_of;
use crate::entry::{Entry, arity_in, body_in, listed_in, name_in};
use crate::given_up::{GivenUp, NOTHING, live};
use crate::index::{Index, place_in, seek_named};
use crate::lookup::Steps;
use crate::offsets::{LONG_FORMAL, StoredFormals, default_of, place_of};
use crate::point::{ExpansionPoint, next_expansion_point};
use crate::point_cache::cached_point;
use crate::removal::remove_named;
use crate::storing::{replace, usage_without};
use rdlpp_define::{DefineFault, DefineKind, Limits, NewMacro, read_define, read_named};
use std::alloc::{AllocError, Global};
use std::marker::Model;

/// Macros with distinct names, oldest first, and how many bytes and how many macros are taken.
///
/// All memory is reserved when the table is made; no later call asks for any.
#[derive(Drop)]
pub struct Table {
    bytes: Vec<u8>,
    entries: Vec<Entry>,
    // What is given up at the fronts of the bytes and of the entries.
    front: GivenUp,
    index: Index,
    most_bytes: usize,
    most_macros: usize,
}

impl Model for Table {
    ghost use Rattle.rdlpp_define.specs.Table.{TableView};

    ghost Value = { TableView };

    ghost use Rattle.rdlpp_table.specs.Layout.{table_view, IsLaidOut};

    ghost view = { table_view };

    ghost invariant = { IsLaidOut };
}

/// The place of a macro in its table, good while the table is unchanged.
#[derive(Clone, Copy, Debug, PartialEq, Eq)]
pub struct MacroId {
    index: usize,
}

impl Model for MacroId {
    ghost use Rattle.std.specs.Prelude.{ℕ};

    ghost Value = { ℕ };

    ghost view = { λ id. id.index };

    ghost inverse = { λ n. record { index = n } };
}

impl MacroId {
    /// The place as a number, counted from 0, oldest first.
    pub fn index(self) -> usize
        ensures { result ≡ self }
    {
        self.index
    }
}

// The entry of a macro, with the bytes into which it points.
#[derive(Clone, Copy, Drop)]
struct Stored<'a> {
    bytes: &'a [u8],
    entry: &'a Entry,
}

impl Table {
    /// An empty table that takes `definition_bytes` bytes and `definitions` macros.
    ///
    /// # Errors
    /// `AllocError` where there was no memory for as many bytes, for as many entries, or for an index of them.
    pub fn new(alloc: Global, limits: &Limits) -> Result<Table, AllocError>
        requires { AreInRange limits.now }
        ensures { IfOk result (λ table. table ≡ record { macros = []; most_bytes = limits.now.definition_bytes; most_macros = limits.now.definitions }) }
    {
        let bytes = Vec::with_capacity(alloc, limits.definition_bytes)?;
        let entries = Vec::with_capacity(alloc, limits.definitions)?;
        let most_offsets = 2 * (limits.definition_bytes / LONG_FORMAL);
        let index = Index::new(alloc, limits.definitions, most_offsets)?;
        Ok(Table {
            bytes,
            entries,
            front: NOTHING,
            index,
            most_bytes: limits.definition_bytes,
            most_macros: limits.definitions,
        })
    }

    /// How many macros there are.
    pub fn len(&self) -> usize
        ensures value { result ≡ length self.now.macros }
        ensures sound { IsSound self.now }
    {
        self.entries.len() - self.front.entries
    }

    /// How many bytes of macros there is memory for: as many as the table takes, however many are taken.
    pub fn capacity(&self) -> usize
        ensures { result ≡ self.now.most_bytes }
    {
        self.bytes.capacity()
    }

    /// Whether there are as many macros as the table takes.
    pub fn is_full(&self) -> bool
        ensures { result ≡ (length self.now.macros == self.now.most_macros) }
    {
        self.len() == self.most_macros
    }

    /// The bytes of the macros, oldest first: of each its name, its formals, its body. A formal is its name, `=` and its
    /// default text where it has one, and a comma.
    pub fn bytes(&self) -> &[u8]
        ensures value { result.now ≡ table_bytes self.now.macros }
        ensures sound { IsSound self.now }
    {
        &self.bytes[self.front.bytes..]
    }

    /// The macro of a name; `None` where there is none.
    pub fn find(&self, name: &[u8]) -> Option<MacroId>
        ensures value { result ≡ place_named self.now.macros name.now }
        ensures inside { IfSome result (λ id. id < length self.now.macros) }
        ensures named { macro_named self.now.macros name.now ≡ option_map (macro_at self.now.macros) result }
        ensures sound { IsSound self.now }
    {
        self.search(name, &mut Steps::new())
    }

    /// The macro of a name; `None` where there is none. Each comparison of `name` with the name of a macro
    /// is counted in `steps`, and a search makes at most 17 of them.
    pub fn search(&self, name: &[u8], steps: &mut Steps) -> Option<MacroId>
        ensures value { result ≡ place_named self.now.macros name.now }
        ensures inside { IfSome result (λ id. id < length self.now.macros) }
        ensures named { macro_named self.now.macros name.now ≡ option_map (macro_at self.now.macros) result }
        ensures sound { IsSound self.now }
        ensures steps { IsCounted steps.old steps.new }
    {
        let entries = live(&self.entries, &self.front);
        let index = place_in(&self.bytes, entries, &self.index, name, steps)?;
        Some(MacroId { index })
    }

    /// The macro at a place, if it is that of a name; `None` where another one stands there, or none. Any number may be asked for.
    ///
    /// Costs one comparison.
    pub fn find_at(&self, place: usize, name: &[u8]) -> Option<MacroId>
        ensures place { IfSome result (λ id. id ≡ place) }
        ensures value { IfSome result (λ id. Some id ≡ place_named self.now.macros name.now) }
        ensures other { IfNone result (place_named self.now.macros name.now ≢ Some place) }
        ensures inside { IfSome result (λ id. id < length self.now.macros) }
        ensures named { IfSome result (λ id. macro_named self.now.macros name.now ≡ option_map (macro_at self.now.macros) (Some id)) }
        ensures sound { IsSound self.now }
    {
        if place < self.len() && self.name(MacroId { index: place }) == name {
            return Some(MacroId { index: place });
        }
        None
    }

    /// The macro that was defined last; `None` where there is none.
    pub fn newest(&self) -> Option<MacroId>
        ensures last { IfSome result (λ id. id + 1 ≡ length self.now.macros) }
        ensures none { IfNone result (length self.now.macros ≡ 0) }
    {
        let len = self.len();
        if len == 0 {
            return None;
        }
        Some(MacroId { index: len - 1 })
    }

    /// The name of a macro.
    pub fn name(&self, id: MacroId) -> &[u8]
        requires { id < length self.now.macros }
        ensures { result.now ≡ (macro_at self.now.macros id).name }
    {
        let found = self.stored(id);
        name_in(found.bytes, found.entry)
    }

    /// The body of a macro.
    pub fn body(&self, id: MacroId) -> &[u8]
        requires { id < length self.now.macros }
        ensures { result.now ≡ (macro_at self.now.macros id).body }
    {
        let found = self.stored(id);
        body_in(found.bytes, found.entry)
    }

    /// How many formals a macro has; `None` where it has no list.
    pub fn arity(&self, id: MacroId) -> Option<usize>
        requires { id < length self.now.macros }
        ensures { result ≡ option_map length (macro_at self.now.macros id).formals }
    {
        arity_in(self.stored(id).entry)
    }

    /// The first place, from `from` on and before `to`, of the body of a macro that isn't copied as it stands: a usage, a lone
    /// backquote or a formal of the macro, where the first ten expansion points of the body tell it; `None` where they don't. The
    /// bytes of the range are read as a text of their own, from plain text on. `from` and `to` are counted in bytes from the front
    /// of the body.
    ///
    /// Reads at most two bytes of the body. The first ten expansion points tell it where `from` is the front of the body or the end
    /// of the expansion point before it, or stands after a blank or a byte that is a token by itself, at most 255 bytes further
    /// on, none of which is `"`, `/` or `<`; and `to` is the end of the body, or at most so many such bytes lie before the
    /// expansion point, which ends at `to` or before it, or before `to`, where no word goes on and which the expansion point is
    /// after.
    pub fn kept_point(&self, id: MacroId, from: usize, to: usize) -> Option<ExpansionPoint>
        requires id { id < length self.now.macros }
        requires order { from ≤ to }
        requires inside { to ≤ length (macro_at self.now.macros id).body }
        ensures { IfSome result (λ point. point ≡ point_in (macro_at self.now.macros id) from to) }
    {
        let found = self.stored(id);
        let body = body_in(found.bytes, found.entry);
        cached_point(&found.entry.points, body, from, to)
    }

    /// The place of which `kept_point` tells, by reading the range: takes time linear in the distance to it, or to `to` where there
    /// is none.
    #[inline(always)]
    pub fn seek_point(&self, id: MacroId, from: usize, to: usize) -> ExpansionPoint
        requires id { id < length self.now.macros }
        requires order { from ≤ to }
        requires inside { to ≤ length (macro_at self.now.macros id).body }
        ensures { result ≡ point_in (macro_at self.now.macros id) from to }
    {
        let body = self.body(id);
        next_expansion_point(&self.formals(id), &[], &body[from..to], from)
    }

    // The entry of a macro, with the bytes into which it points.
    #[inline(always)]
    fn stored(&self, id: MacroId) -> Stored<'_>
        requires { id < length self.now.macros }
        ensures within { entry_end result.entry.now ≤ length result.bytes.now }
        ensures value { macro_in result.bytes.now result.entry.now ≡ macro_at self.now.macros id }
        ensures arity { result.entry.now.arity ≡ option_map length (macro_at self.now.macros id).formals }
        ensures points { result.entry.now.points ≡ cached_points (formals_of (macro_at self.now.macros id)) (macro_at self.now.macros id).body }
    {
        Stored {
            bytes: self.bytes.as_slice(),
            entry: &self.entries[self.front.entries + id.index],
        }
    }

    /// The place of a formal among a macro's formals, counted from 0; `None` where the macro has no list,
    /// or no formal of that name.
    pub fn formal(&self, id: MacroId, name: &[u8]) -> Option<usize>
        requires { id < length self.now.macros }
        ensures { result ≡ formal_named (formals_of (macro_at self.now.macros id)) name.now }
    {
        place_of(&self.formals(id), name)
    }

    /// The default text of a macro's formal at a place, counted from 0; empty where it has none (this project's profile).
    pub fn default_text(&self, id: MacroId, i: usize) -> &[u8]
        requires id { id < length self.now.macros }
        requires i { i < length (formals_of (macro_at self.now.macros id)) }
        ensures { result.now ≡ (formal_at (formals_of (macro_at self.now.macros id)) i).text }
    {
        default_of(&self.formals(id), i)
    }

    // The formals of a macro as they lie in the table, and their offsets.
    fn formals(&self, id: MacroId) -> StoredFormals<'_>
        requires { id < length self.now.macros }
        ensures formals { formals_read result.count result.list.now ≡ formals_of (macro_at self.now.macros id) }
        ensures listed { AreStoredFormals result.count result.list.now result.formal_offsets.now }
    {
        let entries = live(&self.entries, &self.front);
        listed_in(
            self.bytes.as_slice(),
            self.index.formal_offsets(),
            self.front.formal_offsets,
            &entries[id.index],
        )
    }

    /// Takes out all macros: the table is as a new one, and keeps its memory.
    pub fn clear(&mut self)
        ensures { self.new ≡ record self.old { macros = [] } }
    {
        self.bytes.clear();
        self.entries.clear();
        self.front = NOTHING;
        self.index.clear();
    }

    /// Takes out the macro of a name, and answers whether there was one.
    pub fn remove(&mut self, name: &[u8]) -> bool
        ensures value { result ≡ is_some (macro_named self.old.macros name.now) }
        ensures table { self.new ≡ record self.old { macros = without name.now self.old.macros } }
    {
        let bucket = bucket_of(name);
        let found = seek_named(
            &self.bytes,
            &self.entries,
            &self.front,
            &self.index,
            name,
            bucket,
        );
        remove_named(
            &mut self.bytes,
            &mut self.entries,
            &mut self.front,
            &mut self.index,
            name,
            bucket,
            found,
        );
        found.is_ok()
    }

    /// Stores the macro of a `define` in the place of one of its name (IEEE 1364-2001, `define`); `rest` is what
    /// follows that word, up to the end of its logical line or of the text.
    ///
    /// `\` LF and `\` CR LF are read as LF. A formal list is read where `(` follows the name at once. The body loses
    /// its `//` comments, and then the blanks at both ends.
    ///
    /// # Errors
    /// Those of `rdlpp_define::read_define`, and after them `DefinitionBytes` or `TooManyDefinitions` where the table
    /// hasn't room for it without the old macro of that name. The table is unchanged then.
    #[inline(never)]
    pub fn read_define(&mut self, rest: &[u8]) -> Result<(), DefineFault>
        requires line { IfSome (logical_len 0 0 rest.now) (λ n. n ≡ length rest.now) }
        ensures outcome { observed result self.new.macros ≡ define_of self.old.most_bytes self.old.most_macros self.old.macros rest.now }
        ensures refused { OnErr result (self.new ≡ self.old) }
        ensures limits { (self.new.most_bytes ≡ self.old.most_bytes) × (self.new.most_macros ≡ self.old.most_macros) }
    {
        match read_define(rest) {
            Ok(new) => self.store(&new),
            Err(fault) => Err(fault),
        }
    }

    /// Stores a macro without a formal list. `text` is its body, in which a continuation isn't read;
    /// its `//` comments and the blanks at both ends go.
    ///
    /// # Errors
    /// Those of `rdlpp_define::read_named`, and after them `DefinitionBytes` or `TooManyDefinitions` where the table
    /// hasn't room for it without the old macro of that name. The table is unchanged then.
    #[inline(never)]
    pub fn set(&mut self, name: &[u8], text: &[u8]) -> Result<(), DefineFault>
        ensures outcome { observed result self.new.macros ≡ set_of self.old.most_bytes self.old.most_macros self.old.macros name.now text.now }
        ensures refused { OnErr result (self.new ≡ self.old) }
        ensures limits { (self.new.most_bytes ≡ self.old.most_bytes) × (self.new.most_macros ≡ self.old.most_macros) }
    {
        match read_named(name, text) {
            Ok(new) => self.store(&new),
            Err(fault) => Err(fault),
        }
    }

    // Stores a macro after the others, in the place of one of its name.
    fn store(&mut self, new: &NewMacro<'_>) -> Result<(), DefineFault>
        ensures outcome { observed result self.new.macros ≡ stored self.old.most_bytes self.old.most_macros self.old.macros new.now }
        ensures refused { OnErr result (self.new ≡ self.old) }
        ensures limits { (self.new.most_bytes ≡ self.old.most_bytes) × (self.new.most_macros ≡ self.old.most_macros) }
    {
        let name = new.name();
        let bucket = bucket_of(name);
        let rest = usage_without(
            &self.bytes,
            &self.entries,
            &self.front,
            &self.index,
            name,
            bucket,
        );
        let size = name
            .len()
            .saturating_add(new.formals_len())
            .saturating_add(new.body_len());
        if self.most_bytes - rest.size < size {
            return Err(DefineFault::without_word(DefineKind::DefinitionBytes));
        }
        if self.most_macros <= rest.count {
            return Err(DefineFault::without_word(DefineKind::TooManyDefinitions));
        }
        replace(
            &mut self.bytes,
            &mut self.entries,
            &mut self.front,
            &mut self.index,
            new,
            bucket,
            rest.found,
        );
        Ok(())
    }
}
