// One token of a call, or the part of it that is held, or a run of plain argument bytes.
ghost use Rattle.std.specs.Prelude.{◌≡◌, ◌≢◌, ◌+◌, ◌≤◌, ◌<◌, length, false, IfSome};
ghost use Rattle.std.specs.List.{prefix_len};
ghost use Rattle.rdlpp_scan.specs.Tokens.{token_of};
ghost use Rattle.rdlpp_scan.specs.declared.token.Kind.TheVariants.{Back};
ghost use Rattle.rdlpp_scan.specs.declared.token.Mode.TheVariants.{InStr, Plain};
ghost use Rattle.rdlpp_meaning.specs.CallScan.{Before, Inside, fault_at_end};
ghost use Rattle.rdlpp_texts.specs.CallTokens.{role_meant};
ghost use Rattle.rdlpp_usages.specs.CallActions.{is_plain_argument, Answers, IsAction, IsConsumed, level_in, call_state_meant};

use rdlpp_meaning::FaultKind;
use rdlpp_scan::{Kind, Mode, Token, first_token, reserved};
use rdlpp_texts::{CallRole, ends_call, level_after, role_of};

// Where the reading of a call stands.
#[derive(Clone, Copy)]
pub(crate) enum CallState {
    // Before its `(`.
    Before,
    // After it, at a level of further openers.
    Inside(usize),
}

// The use of a token, or of the part of one.
#[derive(Clone, Copy)]
pub(crate) struct Consumed {
    // How many bytes it has.
    pub(crate) len: usize,
    // Where the text stands after it.
    pub(crate) next_mode: Mode,
    // Where the call stands after it.
    pub(crate) call_state: CallState,
    // Whether its bytes are kept.
    pub(crate) is_kept: bool,
}

// What is done with the first token of held bytes.
#[derive(Clone, Copy)]
pub(crate) enum CallAction {
    // It is used, and the call goes on.
    Consumes(Consumed),
    // It is the `)` of the call, of one byte.
    Closes,
    // The call is refused.
    Refused(FaultKind),
    // It is embedded Perl.
    Perl,
}

impl CallState {
    // The fault of a call that goes no further.
    #[tactic(auto, unfolding(crate::specs::CallActions::call_state_meant, rdlpp_meaning::specs::CallScan::fault_at_end))]
    pub(crate) fn fault_at_end(&self) -> FaultKind
        ensures { result ≡ fault_at_end (call_state_meant self.now) }
    {
        match self {
            CallState::Before => FaultKind::ArgumentsMissing,
            CallState::Inside(_) => FaultKind::ArgumentsOpen,
        }
    }
}

// A token that is passed.
fn passes(token: Token, call_state: CallState) -> CallAction
    ensures { result ≡ CallAction.Consumes (record { len = token.len; next_mode = token.next_mode; call_state = call_state; is_kept = false }) }
{
    CallAction::Consumes(Consumed {
        len: token.len,
        next_mode: token.next_mode,
        call_state,
        is_kept: false,
    })
}

// What is done after the `(`, at a level of further openers, with a token of a role.
fn inside_action(level: usize, room: usize, role: CallRole, token: Token) -> CallAction
    requires level { level + room ≤ usize.MAX }
    requires some { 0 < token.len }
    ensures { Answers (Inside level) (role_meant role) room token result }
{
    if ends_call(role, level) {
        return CallAction::Closes;
    }
    if let CallRole::LineComment = role {
        return passes(token, CallState::Inside(level));
    }
    if room < token.len {
        return CallAction::Refused(FaultKind::ArgumentBytes);
    }
    CallAction::Consumes(Consumed {
        len: token.len,
        next_mode: token.next_mode,
        call_state: CallState::Inside(level_after(role, level)),
        is_kept: true,
    })
}

// What is done with a token of a role.
#[tactic(auto, unfolding(crate::specs::CallActions::call_state_meant, crate::specs::CallActions::level_in, rdlpp_texts::specs::CallTokens::role_meant, rdlpp_meaning::specs::CallScan::turn, rdlpp_meaning::specs::CallScan::turn_before, rdlpp_meaning::specs::CallScan::call_state_after, rdlpp_meaning::specs::CallScan::call_state_after_lead, rdlpp_meaning::specs::CallScan::room_after))]
fn role_action(call_state: CallState, room: usize, role: CallRole, token: Token) -> CallAction
    requires level { level_in (call_state_meant call_state) + room ≤ usize.MAX }
    requires some { 0 < token.len }
    ensures { Answers (call_state_meant call_state) (role_meant role) room token result }
{
    match call_state {
        CallState::Before => match role {
            CallRole::Space | CallRole::LineComment | CallRole::BlockComment => {
                passes(token, CallState::Before)
            }
            CallRole::Start => passes(token, CallState::Inside(0)),
            _ => CallAction::Refused(FaultKind::ArgumentsMissing),
        },
        CallState::Inside(level) => inside_action(level, room, role, token),
    }
}

// What is done with a backquote and its name: a directive ends the call.
fn name_action(call_state: CallState, room: usize, held: &[u8], token: Token) -> CallAction
    requires some { 0 < token.len }
    requires inside { token.len ≤ length held.now }
    requires level { level_in (call_state_meant call_state) + room ≤ usize.MAX }
    requires first { token ≡ token_of Plain held.now }
    requires back { token.kind ≡ Back }
    ensures { IsAction (call_state_meant call_state) Plain room held.now result }
{
    if reserved(&held[1..token.len]).is_some() {
        return CallAction::Refused(call_state.fault_at_end());
    }
    role_action(call_state, room, CallRole::Text, token)
}

// Whether a byte is neither LF nor a bracket, and begins no string, no comment, no usage and no `<%`.
#[tactic(auto, unfolding(crate::specs::CallActions::is_plain_argument, rdlpp_scan::specs::Bytes::is_line_end, rdlpp_scan::specs::Bytes::is_opener, rdlpp_scan::specs::Bytes::is_closer))]
fn is_plain_argument(b: u8) -> bool
    ensures { result ≡ is_plain_argument b }
{
    b != b'\n'
        && !(b == b'(' || b == b'[' || b == b'{')
        && !(b == b')' || b == b']' || b == b'}')
        && b != b'"'
        && b != b'/'
        && b != b'<'
        && b != b'`'
}

// How many such bytes a text begins with.
fn plain_argument_bytes(text: &[u8]) -> usize
    ensures value { result ≡ prefix_len is_plain_argument text.now }
    ensures inside { result ≤ length text.now }
{
    text.iter().take_while(|b| is_plain_argument(**b)).count()
}

// The use of the plain argument bytes with which held bytes begin in plain text after the `(`, if there are some and they fit.
fn plain_argument_use(
    call_state: CallState,
    mode: Mode,
    room: usize,
    held: &[u8],
) -> Option<Consumed>
    ensures { IfSome result (λ u. IsConsumed (call_state_meant call_state) mode room held.now u) }
{
    let CallState::Inside(level) = call_state else {
        return None;
    };
    let Mode::Plain = mode else {
        return None;
    };
    let len = plain_argument_bytes(held);
    if len == 0 || room < len {
        return None;
    }
    Some(Consumed {
        len,
        next_mode: Mode::Plain,
        call_state: CallState::Inside(level),
        is_kept: true,
    })
}

/// What is done in a call with the first token of held bytes, or with the part of it that is held: it
/// is used, and kept where it stands between the parentheses and is no `//` comment; or it is the `)`;
/// or it ends the call. What stands first between the parentheses is used at once up to a line end, a
/// bracket, a string, a comment, a usage or `<%`, where it fits.
///
/// # Rules
///
/// Before the `(` stand white space and comments alone; a directive ends the call; a token that passes
/// the room is one byte too many, before a fault of its own (this project's profile).
pub(crate) fn action_at(call_state: CallState, mode: Mode, room: usize, held: &[u8]) -> CallAction
    requires some { 0 < length held.now }
    requires level { level_in (call_state_meant call_state) + room ≤ usize.MAX }
    requires lead { call_state_meant call_state ≡ Before → mode ≢ InStr }
    ensures { IsAction (call_state_meant call_state) mode room held.now result }
{
    if let Some(plain_argument) = plain_argument_use(call_state, mode, room, held) {
        return CallAction::Consumes(plain_argument);
    }
    let token = first_token(mode, held);
    match token.kind {
        Kind::Perl => CallAction::Perl,
        Kind::Back => name_action(call_state, room, held, token),
        kind => role_action(call_state, room, role_of(kind, held[0]), token),
    }
}
