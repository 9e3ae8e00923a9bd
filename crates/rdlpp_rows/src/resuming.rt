// Outputs that go on: a run after one that stopped, and reads over steps without bytes.
use crate::devices::{DealtTexts, Devices, WHOLE};
use crate::spelling::numbered;
use rdlpp::{Counted, Limits, OpenSource, Placed, Sources, Table, Texts, Watcher};
use rdlpp_expand::{Engine, Reading, run, run_watched};
use std::alloc::{AllocError, Global};

// Counts the definitions that it is told of.
#[derive(Drop)]
struct DefinitionCount {
    told: u64,
}

impl Watcher for DefinitionCount {
    ghost use Rattle.std.specs.Prelude.{true};

    ghost looks = { λ _. true };

    fn is_looking(&self) -> bool {
        true
    }

    fn saw<P: Placed>(&mut self, _piece: &[u8], _placed: &P) {}

    fn defined(&mut self, _table: &Table, _place: OpenSource<'_>) {
        self.told = self.told.saturating_add(1);
    }
}

// Texts that both define a macro.
const DEFINING: [(&str, &[u8]); 2] = [
    ("m", b"`define A 1\n`include \"i\"\n"),
    ("i", b"`define B 2\n"),
];

/// What isn't as it has to be with an output that goes on; nothing where all is.
pub fn failed_resuming(alloc: Global) -> Result<Option<&'static str>, AllocError> {
    if !tells_its_own_definitions(alloc)? {
        return Ok(Some("a run that goes on is told of its own definitions alone"));
    }
    if !comes_back_between_bytes(alloc)? {
        return Ok(Some("a read takes no more steps between single bytes than over nothing"));
    }
    Ok(None)
}

// Whether a run that goes on where another one stopped, since the search of its include failed, is told of its own definition alone.
fn tells_its_own_definitions(alloc: Global) -> Result<bool, AllocError> {
    let failing = Devices {
        searches: 1,
        ..WHOLE
    };
    let Some(mut engine) = started(alloc, defining_texts(failing))? else {
        return Ok(false);
    };
    let mut writer = Counted::new(Vec::new(alloc));
    if engine.is_fresh() || run(&mut engine, &mut writer).is_ok() {
        return Ok(false);
    }
    let _spent = engine.replace_sources(defining_texts(WHOLE));
    engine.retry();
    if engine.is_fresh() {
        return Ok(false);
    }
    let mut watcher = DefinitionCount { told: 0 };
    let _written = run_watched(&mut engine, &mut writer, &mut watcher);
    Ok(engine.kept_fault().is_none() && watcher.told == 1)
}

// The texts that define macros, by such devices.
fn defining_texts(devices: Devices) -> DealtTexts<'static> {
    DealtTexts {
        texts: Texts {
            files: &DEFINING,
            folders: &[],
        },
        found: None,
        devices,
        failures: 0,
    }
}

// An engine whose main text is open; none where it can't be opened.
fn started<S: Sources>(alloc: Global, sources: S) -> Result<Option<Engine<S>>, AllocError> {
    let Ok(mut engine) = Engine::new(alloc, Limits::standard(), sources, false) else {
        return Err(AllocError);
    };
    if !engine.is_fresh() || engine.start("m").is_err() {
        return Ok(None);
    }
    Ok(Some(engine))
}

// Whether a read takes no more steps over ten doublings of nothing before each of fifty bytes than over nothing alone, so that it
// comes back after some of them, and reads on and on give all.
fn comes_back_between_bytes(alloc: Global) -> Result<bool, AllocError> {
    let source = bytes_after_doublings(alloc)?;
    let files = [("m", source.as_slice())];
    let texts = Texts {
        files: &files,
        folders: &[],
    };
    let Some(engine) = started(alloc, texts)? else {
        return Ok(false);
    };
    if engine.is_fresh() {
        return Ok(false);
    }
    let mut reading = Reading::of(engine);
    let mut given = 0_usize;
    for reads in 1..10_u32 {
        let mut out = [0_u8; 200];
        let part = reading.read(&mut out);
        if part.len > 40 {
            return Ok(false);
        }
        given = given.saturating_add(part.len);
        if part.ending.is_some() {
            return Ok(
                reads > 1 && given == 61 && reading.rest_len() == 0 && reading.fault().is_none(),
            );
        }
    }
    Ok(false)
}

// Ten doublings of nothing before each of fifty bytes.
fn bytes_after_doublings(alloc: Global) -> Result<Vec<u8>, AllocError> {
    let mut source = Vec::from_slice(alloc, b"`define E0\n")?;
    for number in 0..10_u32 {
        let line = numbered(alloc, "`define E{+} `E{#}`E{#}\n", number)?;
        source.extend_from_slice(line.as_bytes())?;
    }
    for _ in 0..50 {
        source.extend_from_slice(b"`E10.")?;
    }
    Ok(source)
}
