//! What is answered to a command line that asks for a live run.

ghost use Rattle.std.specs.Prelude.{◌≡◌, IfSome, Ok, true};
ghost use Rattle.live_calls.specs.Prelude.{Consumes, IsReported, IsScenario, IsTaken, Rose, FailsByKeeper, across, is_live, status_of};
ghost use Rattle.live_calls.specs.Ends.{LiveEndsOf, LiveEndsOver};

use crate::command_line::Places;
use crate::delivery::live_ending;
use crate::kept_rows_items::Keeper;
use crate::orch_base::{Gate, Sink, Source};
use crate::reading::live_scenario_from;
use crate::scenarios_items::Scenario;
use crate::tasks::Ending;
use std::alloc::Global;
use std::sync::Wait;
use std::thread::Threads;
use top_call::{Stop, Way, close, close_fault};

// Runs the scenario in threads, and writes what the command line asks.
fn report<R: Threads + Wait + Sync, G: Gate + Sync, O: Sink, E: Sink, K: Keeper>(
    rt: &R,
    alloc: Global,
    places: &Places,
    scenario: &Scenario,
    out: &mut O,
    err: &mut E,
    keeper: &mut K,
    gate: &G,
) -> Way
    requires words { IsTaken places.now }
    requires live { is_live places.now ≡ true }
    requires scenario { IsScenario scenario.now }
    ensures ends { LiveEndsOver places.now scenario.now (K.kept keeper.old) (K.kept keeper.new)
        (across (O.written out.old) (O.faults out.old) (O.written out.new) (O.faults out.new))
        (across (E.written err.old) (E.faults err.old) (E.written err.new) (E.faults err.new))
        result }
    ensures sink { result ≡ Way.Sink → Rose (O.faults out.old) (O.faults out.new) }
    ensures keeper { FailsByKeeper (K.faults keeper.old) (K.faults keeper.new) (status_of result) }
    ensures not_source { result ≡ Way.Source → ⊥ }
    ensures not_usage { result ≡ Way.Usage → ⊥ }
{
    match live_ending(rt, alloc, places, scenario, out, keeper, gate) {
        Ending::Written(refused) => Way::Reported(refused),
        Ending::Unwritten => {
            close(err, b"write fault\n");
            Way::Sink
        }
        Ending::Keeper => {
            close(err, b"keeper fault\n");
            Way::Keeper
        }
        Ending::Memory => {
            close(err, b"out of memory\n");
            Way::Memory
        }
    }
}

/// Answers an accepted command line that asks to run the scenario that the source has in threads. Several orchestrators
/// are a fault of it, after all others.
pub(crate) fn answer<
    R: Threads + Wait + Sync,
    G: Gate + Sync,
    S: Source,
    O: Sink,
    E: Sink,
    K: Keeper,
>(
    rt: &R,
    alloc: Global,
    places: &Places,
    source: &mut S,
    out: &mut O,
    err: &mut E,
    keeper: &mut K,
    gate: &G,
) -> Way
    requires words { IsTaken places.now }
    requires live { is_live places.now ≡ true }
    ensures ends { LiveEndsOf (Ok places.now) (S.left source.old)
        (K.kept keeper.old) (K.kept keeper.new)
        (across (O.written out.old) (O.faults out.old) (O.written out.new) (O.faults out.new))
        (across (E.written err.old) (E.faults err.old) (E.written err.new) (E.faults err.new))
        result }
    ensures not_usage { result ≡ Way.Usage → ⊥ }
    ensures source { result ≡ Way.Source → Rose (S.faults source.old) (S.faults source.new) }
    ensures sink { result ≡ Way.Sink → Rose (O.faults out.old) (O.faults out.new) }
    ensures keeper { FailsByKeeper (K.faults keeper.old) (K.faults keeper.new) (status_of result) }
    ensures read { IsReported result
        → IfSome (S.left source.old)
        (λ bytes. Consumes (S.left source.old) (S.left source.new) bytes) }
{
    match live_scenario_from(alloc, source) {
        Ok(scenario) => report(rt, alloc, places, &scenario, out, err, keeper, gate),
        Err(Stop::Memory) => {
            close(err, b"out of memory\n");
            Way::Memory
        }
        Err(Stop::Source) => {
            close(err, b"read fault\n");
            Way::Source
        }
        Err(Stop::Fault(fault)) => close_fault(alloc, err, &fault),
    }
}
