//! A model of the texts that were loaded is made ready.

ghost use Rattle.std.specs.Prelude.{◌≡◌, IfOk, IfErr};
ghost use Rattle.answer_analysis.specs.Found.{IsLoadedFault};
ghost use Rattle.cli_model.specs.Ready.{IsModelOf, IsPreparedOf};

use answer_analysis::{AnalyseFault, Prepared, Ready, ready_loaded, with_target};
use std::alloc::Global;
use syntax_tree::Loaded;

/// The model of what is loaded, made ready for its command of this number.
pub fn made_ready(alloc: Global, loaded: Loaded, command: u32) -> Result<Ready, AnalyseFault>
    ensures made { IfOk result (λ ready. IsModelOf ready.loaded command ready) }
    ensures loaded { IfOk result (λ ready. ready.loaded ≡ loaded) }
    ensures fault { IfErr result (IsLoadedFault loaded command) }
{
    let ready = ready_loaded(alloc, loaded, command)?;
    Ok(ready)
}

/// The same made ready for a search.
pub fn made_prepared(alloc: Global, loaded: Loaded, command: u32) -> Result<Prepared, AnalyseFault>
    ensures made { IfOk result (λ prepared. IsPreparedOf prepared.ready.loaded command prepared) }
    ensures loaded { IfOk result (λ prepared. prepared.ready.loaded ≡ loaded) }
    ensures fault { IfErr result (IsLoadedFault loaded command) }
{
    let ready = made_ready(alloc, loaded, command)?;
    let prepared = with_target(alloc, ready)?;
    Ok(prepared)
}
