// The reading of a call, token by token, over any number of refills.
ghost use Rattle.std.specs.Prelude.{◌≡◌, ◌≢◌, ℕ, ◌-◌, ◌^◌, ◌≤◌, ◌<◌, [], length, take, true};
ghost use Rattle.rdlpp_scan.specs.declared.token.Mode.TheVariants.{InStr, Plain};
ghost use Rattle.rdlpp_meaning.specs.CallScan.{Before};
ghost use Rattle.rdlpp_read.specs.Buffer.{held_of};
ghost use Rattle.rdlpp_read.specs.Calls.{SourcesRead};
ghost use Rattle.rdlpp_read.specs.Files.{inner_buffer};
ghost use Rattle.rdlpp_usages.specs.CallReads.{
  IsEndOfText,
  IsNextFault,
  IsNextLine,
  IsReadFault,
  IsReadLine,
  MeansCall,
  ReadsCall,
  TakesToken,
  is_failed_call,
  used_buffer,
  with_used,
};
ghost use Rattle.rdlpp_usages.specs.CallActions.{kept_of, level_in, call_state_meant};

use crate::action::{CallAction, CallState, Consumed, action_at};
use crate::store::ArgumentStore;
use rdlpp_meaning::FaultKind;
use rdlpp_read::{Files, Fill};
use rdlpp_scan::{Mode, line_ends_in};
use rdlpp_source::Sources;

/// What reading a call comes to.
#[derive(Clone, Copy)]
pub enum CallRead {
    /// The call is closed, and the store has its kept bytes.
    Closed,
    /// The call is refused, at the line of its usage: its `(` or its `)` is missing, or it has more kept
    /// bytes than there may be.
    Refused(FaultKind),
    /// The call is broken by embedded Perl, by a string or a comment that isn't closed, or by a line or a
    /// source that is too long; and the physical line of that.
    Broken(FaultKind, u64),
    /// A read failed.
    Failed,
}

// What follows one token of a call.
enum Next {
    // The call goes on where it stands then.
    Goes(CallState),
    // The reading ends.
    Ends(CallRead),
}

/// Reads what stands after the name of a macro with a list of formals, from the innermost source, over
/// any number of its lines: after white space, line ends and comments a `(`, and all up to its `)`,
/// which stands outside strings, comments and further openers. What is kept are the bytes between the
/// two but those of `//` comments; the store has them, and nothing of what it had before. After a call
/// that is closed, the source goes on after its `)`.
///
/// The sources are asked to read only where all held bytes are used. Takes no memory.
///
/// # Rules
///
/// A directive, or the end of the text, ends the call: before the `(` its arguments are missing, after
/// it they aren't closed. For each token its bytes count first: kept bytes that pass the room of the
/// store are refused before a broken token's own fault. Where a read failed nothing is lost: what was
/// kept so far and what remains come to the same call (this project's profile).
pub fn read_call<S: Sources>(
    files: &mut Files<S::Reader>,
    sources: &mut S,
    store: &mut ArgumentStore,
) -> CallRead
    requires some { 0 < length files.old.include_stack }
    requires plain { (inner_buffer files.old.include_stack).mode ≡ Plain }
    ensures only { files.new ≡ record files.old { include_stack = files.new.include_stack } }
    ensures room { store.new.most ≡ store.old.most }
    ensures call { SourcesRead S.Sources (is_failed_call result) sources.old sources.new }
    ensures reads { ReadsCall (S.has_known_texts sources.old) S.unread Before store.old.most store.new.bytes result files.old.include_stack files.new.include_stack }
    ensures unheld { is_failed_call result ≡ true → held_of (inner_buffer files.new.include_stack) ≡ [] }
    ensures fault { IsReadFault result }
    ensures line { IsReadLine result }
    ensures means { MeansCall (S.has_known_texts sources.old) S.unread store.old.most store.new.bytes (inner_buffer files.old.include_stack) (inner_buffer files.new.include_stack) result }
{
    read_tokens(files, sources, store)
}

// Consumes the first `len` held bytes of the innermost source, after which its text stands in a mode.
fn use_bytes<R: Drop>(files: &mut Files<R>, len: usize, next: Mode)
    requires some { 0 < length files.old.include_stack }
    requires inside { len ≤ length (held_of (inner_buffer files.old.include_stack)) }
    ensures { files.new ≡ record files.old { include_stack = with_used (used_buffer (inner_buffer files.old.include_stack) len next) (take len (held_of (inner_buffer files.old.include_stack))) files.old.include_stack } }
{
    let lines = line_ends_in(&files.file().buffer.held()[..len]);
    files.enter_mode(next);
    files.consume(len, lines);
}

// What is kept of the held bytes that a token uses.
fn kept_part(token: Consumed, held: &[u8]) -> &[u8]
    requires { token.len ≤ length held.now }
    ensures { result.now ≡ kept_of token.is_kept (take token.len held.now) }
{
    if token.is_kept {
        &held[..token.len]
    } else {
        &[]
    }
}

// Takes one token of a call, or the part of it that is held, or a run of plain argument bytes.
fn take_token<R: Drop>(
    files: &mut Files<R>,
    store: &mut ArgumentStore,
    call_state: CallState,
) -> Next
    requires some { 0 < length files.old.include_stack }
    requires held { 0 < length (held_of (inner_buffer files.old.include_stack)) }
    requires level { level_in (call_state_meant call_state) ≤ length store.old.bytes }
    requires lead { call_state_meant call_state ≡ Before → (inner_buffer files.old.include_stack).mode ≢ InStr }
    ensures only { files.new ≡ record files.old { include_stack = files.new.include_stack } }
    ensures room { store.new.most ≡ store.old.most }
    ensures takes { TakesToken (call_state_meant call_state) (store.old.most - length store.old.bytes) store.old.bytes store.new.bytes files.old.include_stack files.new.include_stack result }
    ensures fault { IsNextFault result }
    ensures line { IsNextLine result }
{
    let buffer = &files.file().buffer;
    let (held, line) = (buffer.held(), buffer.line());
    match action_at(call_state, buffer.mode(), store.room(), held) {
        CallAction::Consumes(token) => {
            store.append(kept_part(token, held));
            use_bytes(files, token.len, token.next_mode);
            Next::Goes(token.call_state)
        }
        CallAction::Closes => {
            use_bytes(files, 1, Mode::Plain);
            Next::Ends(CallRead::Closed)
        }
        CallAction::Refused(kind) => Next::Ends(CallRead::Refused(kind)),
        CallAction::Perl => Next::Ends(CallRead::Broken(FaultKind::EmbeddedPerl, line)),
    }
}

// The physical line of the next byte of the innermost source.
fn inner_line<R: Drop>(files: &Files<R>) -> u64
    requires { 0 < length files.now.include_stack }
    ensures line { result ≡ (inner_buffer files.now.include_stack).line }
    ensures few { result < 2 ^ 63 }
{
    let buffer = &files.file().buffer;
    buffer.facts();
    buffer.line()
}

// What a call comes to where the text of the innermost source has ended.
fn end_of_text<R: Drop>(files: &Files<R>, call_state: CallState) -> CallRead
    requires { 0 < length files.now.include_stack }
    ensures text { (room : ℕ) → IsEndOfText (call_state_meant call_state) room (inner_buffer files.now.include_stack) result }
    ensures fault { IsReadFault result }
    ensures line { IsReadLine result }
{
    let buffer = &files.file().buffer;
    buffer.facts();
    match buffer.mode() {
        Mode::Plain => CallRead::Refused(call_state.fault_at_end()),
        Mode::InStr => CallRead::Broken(FaultKind::OpenString, buffer.open_token_line()),
        Mode::InBlock => CallRead::Broken(FaultKind::OpenComment, buffer.open_token_line()),
    }
}

// Reads a call token by token, and fills the buffer where all that is held is used.
fn read_tokens<S: Sources>(
    files: &mut Files<S::Reader>,
    sources: &mut S,
    store: &mut ArgumentStore,
) -> CallRead
    requires some { 0 < length files.old.include_stack }
    requires plain { (inner_buffer files.old.include_stack).mode ≡ Plain }
    ensures only { files.new ≡ record files.old { include_stack = files.new.include_stack } }
    ensures room { store.new.most ≡ store.old.most }
    ensures call { SourcesRead S.Sources (is_failed_call result) sources.old sources.new }
    ensures reads { ReadsCall (S.has_known_texts sources.old) S.unread Before store.old.most store.new.bytes result files.old.include_stack files.new.include_stack }
    ensures unheld { is_failed_call result ≡ true → held_of (inner_buffer files.new.include_stack) ≡ [] }
    ensures fault { IsReadFault result }
    ensures line { IsReadLine result }
{
    store.clear();
    let mut call_state = CallState::Before;
    'tokens: loop {
        match files.fill(sources) {
            Fill::Held => match take_token(files, store, call_state) {
                Next::Goes(to) => call_state = to,
                Next::Ends(read) => return read,
            },
            Fill::End => return end_of_text(files, call_state),
            Fill::SourceLong => {
                return CallRead::Broken(FaultKind::SourceTooLong, inner_line(files));
            }
            Fill::LineLong => {
                return CallRead::Broken(FaultKind::LineTooLong, inner_line(files));
            }
            Fill::Failed => return CallRead::Failed,
        }
    }
}
