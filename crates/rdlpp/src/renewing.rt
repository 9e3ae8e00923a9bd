// Preprocessing one main text after another in one engine.
ghost use Rattle.std.specs.Prelude.{◌≡◌};
ghost use Rattle.rdlpp.specs.Preprocess.{Preprocesses, Tells, output_of};

use crate::{Options, PrepFault, new_engine, run_watched_from};
use rdlpp_expand::{Engine, Unwatched};
use rdlpp_source::{Sink, Sources};
use std::alloc::Global;
use std::marker::Model;

/// Preprocesses one main text after another, each as `preprocess` does, in one engine: the first call makes it, and each further
/// one renews it, so that many small texts ask once for memory.
#[derive(Drop)]
pub struct Preprocessor<S: Sources> {
    alloc: Global,
    options: Options,
    // by the limits of the options
    engine: Option<Engine<S>>,
}

impl<S: Sources> Model for Preprocessor<S> {
    ghost use Rattle.rdlpp.specs.Renewing.{HasLimitsOf};
    ghost use Rattle.rdlpp_define.specs.declared.options.Options.{Options};

    ghost Value = { Options };

    ghost view = { λ p. p.options };

    ghost invariant = { λ p. HasLimitsOf p.options p.engine };
}

impl<S: Sources> Preprocessor<S> {
    /// One that does what the options ask for. It has no engine before the first call.
    pub fn new(alloc: Global, options: Options) -> Preprocessor<S>
        ensures { result ≡ options }
    {
        Preprocessor {
            alloc,
            options,
            engine: None,
        }
    }

    /// Preprocesses the main text at `path` of `sources`, and writes what it gives to `writer`: nothing of an earlier call is seen,
    /// however it ended.
    ///
    /// The sources are kept until the next call, or until this is dropped.
    ///
    /// # Errors
    /// As of `preprocess`. `NoMemory` comes only of a call that makes the engine: the first one, or one after such a refusal.
    pub fn preprocess<W: Sink>(
        &mut self,
        sources: S,
        path: &str,
        writer: &mut W,
    ) -> Result<u64, PrepFault>
        ensures options { self.new ≡ self.old }
        ensures outcome { Preprocesses S.Sources W.Sink self.old sources path.now writer.old writer.new result }
        ensures output { S.has_known_texts sources →
            Tells (W.taken writer.old) (W.taken writer.new) (output_of S.Sources self.old sources path.now) result }
    {
        if let Some(engine) = &mut self.engine {
            let _before = engine.renew(sources, self.options.origins);
            return run_watched_from(engine, &self.options, path, writer, &mut Unwatched {});
        }
        self.preprocess_first(sources, path, writer)
    }

    // Preprocesses a main text in an engine that is made for it.
    #[cold]
    #[inline(never)]
    fn preprocess_first<W: Sink>(
        &mut self,
        sources: S,
        path: &str,
        writer: &mut W,
    ) -> Result<u64, PrepFault>
        ensures options { self.new ≡ self.old }
        ensures outcome { Preprocesses S.Sources W.Sink self.old sources path.now writer.old writer.new result }
        ensures output { S.has_known_texts sources →
            Tells (W.taken writer.old) (W.taken writer.new) (output_of S.Sources self.old sources path.now) result }
    {
        let mut engine = match new_engine(self.alloc, &self.options, sources) {
            Ok(engine) => engine,
            Err(fault) => return Err(fault),
        };
        let outcome = run_watched_from(&mut engine, &self.options, path, writer, &mut Unwatched {});
        self.engine = Some(engine);
        outcome
    }
}
