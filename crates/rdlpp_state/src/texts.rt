// Short texts of bounded length.
ghost use Rattle.std.specs.Prelude.{◌≡◌};
ghost use Rattle.rdlpp_meaning.specs.Outcome.{report_of};

use arrayvec::ArrayString;
use rdlpp_meaning::Fault;

/// The same text once more.
pub fn copied<const N: usize>(text: &ArrayString<N>) -> ArrayString<N>
    ensures { result.bytes ≡ text.now.bytes }
{
    let _len = text.len();
    let mut copy = ArrayString::new();
    copy.push_str(text.as_str());
    copy
}

/// The same fault once more.
#[tactic(auto, unfolding(rdlpp_meaning::specs::Outcome::report_of))]
pub fn copied_fault(fault: &Fault) -> Fault
    ensures { report_of result ≡ report_of fault.now }
{
    Fault {
        kind: fault.kind,
        name: copied(&fault.name),
        line: fault.line,
        word: copied(&fault.word),
    }
}
