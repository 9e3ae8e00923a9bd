// Definitions from outside.
ghost use Rattle.std.specs.Prelude.{◌≡◌, [], OnErr};
ghost use Rattle.rdlpp_meaning.specs.Outcome.{report_of};
ghost use Rattle.rdlpp_state.specs.Engine.{EngineView};
ghost use Rattle.rdlpp_state.specs.declared.phase.Phase.TheVariants as phase;
ghost use Rattle.rdlpp.specs.Definitions.{AreGiven, refused_definition, with_macros};

use arrayvec::ArrayString;
use rdlpp_define::DefineFault;
use rdlpp_expand::{Engine, Fault, Reading, RunFault, fault_kind};
use rdlpp_source::Sources;

/// Defines macros in a fresh engine, in order.
///
/// # Errors
/// The fault of the first definition that is refused; the engine has those before it then.
pub(crate) fn define_all<S: Sources>(
    engine: &mut Engine<S>,
    defines: &[(String, String)],
) -> Result<(), RunFault>
    requires { engine.old.phase ≡ phase.Fresh }
    ensures given { AreGiven engine.old engine.new defines.now result }
    ensures limits { engine.new.limits ≡ engine.old.limits }
{
    for (index, (name, text)) in defines.iter().enumerate() {
        if let Err(fault) = engine.define(name.as_bytes(), text.as_bytes()) {
            return Err(refused(fault, index as u64 + 1));
        }
    }
    Ok(())
}

/// Defines macros in a reading that was renewed, in order, as `define_all` does in an engine.
///
/// # Errors
/// As of `define_all`.
pub(crate) fn define_all_again<S: Sources>(
    reading: &mut Reading<S>,
    defines: &[(String, String)],
) -> Result<(), RunFault>
    requires { reading.old.engine.phase ≡ phase.Closed }
    ensures given { AreGiven reading.old.engine reading.new.engine defines.now result }
    ensures refused { OnErr result (reading.new ≡ record { engine = with_macros reading.old.engine reading.new.engine.table.macros; rest = [] }) }
{
    for (index, (name, text)) in defines.iter().enumerate() {
        if let Err(fault) = reading.define(name.as_bytes(), text.as_bytes()) {
            return Err(refused(fault, index as u64 + 1));
        }
    }
    Ok(())
}

// The fault of a refused definition, at its place.
#[tactic(auto, unfolding(rdlpp_meaning::specs::Outcome::report_of, crate::specs::Definitions::refused_definition))]
fn refused(fault: DefineFault, place: u64) -> RunFault
    ensures fault { report_of result.fault ≡ refused_definition fault.kind fault.word.bytes place }
    ensures written { result.written ≡ 0 }
{
    let mut name = ArrayString::new();
    name.push_str("-D");
    let fault = Fault {
        kind: fault_kind(fault.kind),
        name,
        line: place,
        word: fault.word,
    };
    RunFault { fault, written: 0 }
}
