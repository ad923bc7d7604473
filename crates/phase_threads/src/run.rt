//! A phase from its opening to its close.
ghost use Rattle.std.specs.Prelude.{◌≡◌, ◌+◌, ◌<◌, ◌≤◌, length, max, IfOk, IfErr, OnOk, OnErr};
ghost use Rattle.std.specs.List.{All};
ghost use Rattle.entities.specs.Census.{population};
ghost use Rattle.entities.specs.Phase.Reserve.{givable};
ghost use Rattle.entities.specs.Phase.Board.{AreFresh, IsPassOf};
ghost use Rattle.entities.specs.Phase.Opened.{entities_of, board_of, phase_opened};
ghost use Rattle.entities.specs.Phase.Calls.{IsOpen};
ghost use Rattle.entities.specs.Phase.Given.{IsBlank};
ghost use Rattle.phase_threads.specs.Phases.{RanAPhase, RanTo};
ghost use Rattle.phase_threads.specs.Seating.{TookTurn};
ghost use Rattle.phase_threads.specs.Calling.{TakesPasses, KeepsPasses, MayCall, CameOf};

use crate::seats::{Seat, Seats};
use crate::turn::Turn;
use entities::{Closed, EntitiesRes, MOST_PASSES, OpenError, Pass, Shared};
use std::alloc::Global;
use std::thread;
use std::thread::Threads;

/// Calls a turn with a pass that has made no call.
fn call_turn<A, F: Fn(&Shared<'_>, &mut Pass) -> A>(
    shared: &Shared<'_>,
    turn: &F,
    pass: &mut Pass,
) -> A
    requires takes { TakesPasses (F.pre turn.now) }
    requires keeps { KeepsPasses (F.post turn.now) }
    requires may { MayCall shared.now pass.old }
    ensures came { CameOf (F.post turn.now) (phase_opened shared.now) pass.new result }
    ensures pass { IsPassOf (board_of shared.now) pass.new }
{
    turn(shared, pass)
}

/// A pass takes its turn, and keeps what it answered.
fn take_turn<A: Drop, F: Fn(&Shared<'_>, &mut Pass) -> A>(
    shared: &Shared<'_>,
    turn: &F,
    seat: &mut Seat<A>,
)
    requires takes { TakesPasses (F.pre turn.now) }
    requires keeps { KeepsPasses (F.post turn.now) }
    requires waits { MayCall shared.now seat.old.pass }
    ensures { TookTurn (CameOf (F.post turn.now)) (board_of shared.now) (phase_opened shared.now) seat.new }
{
    seat.answer = Some(call_turn(shared, turn, &mut seat.pass));
}

/// Each pass takes its turn, in a thread of its own where one can be made.
fn take_turns<A: Send + Drop, F: Fn(&Shared<'_>, &mut Pass) -> A + Sync>(
    rt: &(impl Threads + Sync),
    shared: &Shared<'_>,
    turn: &F,
    seats: &mut [Seat<A>],
)
    requires takes { TakesPasses (F.pre turn.now) }
    requires keeps { KeepsPasses (F.post turn.now) }
    requires wait { All (λ seat. MayCall shared.now seat.pass) seats.old }
    ensures took { All (TookTurn (CameOf (F.post turn.now)) (board_of shared.now) (phase_opened shared.now)) seats.new }
    ensures len { length seats.new ≡ length seats.old }
{
    thread::for_each_mut(
        rt,
        seats,
        MOST_PASSES,
        &|_i: usize, seat: &mut Seat<A>|
            requires takes { TakesPasses (F.pre turn.now) }
            requires keeps { KeepsPasses (F.post turn.now) }
            requires waits { MayCall shared.now seat.old.pass }
            ensures { TookTurn (CameOf (F.post turn.entry.now)) (board_of shared.entry.now) (phase_opened shared.entry.now) seat.new }
        { take_turn(shared, turn, seat) },
    );
}

/// Each pass of an open phase takes its turn, and the phase is closed. Where there is no memory for the answers, it is closed at once.
fn run_open<A: Send + Drop, F: Fn(&Shared<'_>, &mut Pass) -> A + Sync>(
    rt: &(impl Threads + Sync),
    alloc: Global,
    shared: Shared<'_>,
    passes: Vec<Pass>,
    turn: &F,
) -> Result<(Closed, Vec<A>), OpenError>
    requires takes { TakesPasses (F.pre turn.now) }
    requires keeps { KeepsPasses (F.post turn.now) }
    requires open { IsOpen (entities_of shared) (board_of shared) }
    requires fresh { AreFresh (board_of shared) 0 passes.items }
    requires whole { length passes.items ≡ (phase_opened shared).passes }
    requires of_phase { All (IsPassOf (board_of shared)) passes.items }
    requires blank { All (IsBlank (phase_opened shared)) passes.items }
    ensures ran { IfOk result (λ r. RanTo (CameOf (F.post turn.now)) (phase_opened shared.entry) (population (entities_of shared.entry)) (population shared.exit.0.now) r.0 r.1.items) }
    ensures answers { IfOk result (λ r. length r.1.items ≡ length passes.items) }
    ensures back { IfOk result (λ r. r.0.passes_back ≡ length passes.items) }
    ensures same { OnErr result (population shared.exit.0.now ≡ population (entities_of shared.entry)) }
    ensures memory { IfErr result (λ e. e ≡ OpenError.OutOfMemory) }
    ensures room { shared.exit.0.now.room ≡ (entities_of shared.entry).room }
{
    let mut seats = match Seats::of(alloc, passes) {
        Ok(seats) => seats,
        Err(passes) => {
            let _ = shared.close(passes);
            return Err(OpenError::OutOfMemory);
        }
    };
    take_turns(rt, &shared, turn, &mut seats.taken);
    let (passes, answers) = seats.parted();
    Ok((shared.close(passes), answers))
}

/// A phase by one call: it is opened with `reserve` entities set aside and `passes` passes, `turn` is called with each pass, in a thread of
/// its own where one can be made, and the phase is closed by all passes. It answers what the phase came to, and what the calls answered,
/// one for each pass. It stands for systems that run side by side and create or delete entities by `&EntitiesRes`.
///
/// A closure that only makes calls of the phase needs no clause: that it may be called, and leaves its pass one of the phase, follows from
/// theirs. Of a closure with a loop nothing follows: it states both, or its body is a `Turn`.
///
/// The errors are those of `open`, in their order. Where there is no room for the answers the error is `OutOfMemory` too: then the phase
/// is closed before any call, with nobody born or marked. After each error the population is as it was.
///
/// It takes the memory of `open`, and a place for each pass and its answer. It takes the time of `open`, of the turns and of `close`, and
/// starts at most a thread for each pass but one. Where no thread can be made the turns run one after another, so a turn must not wait for
/// another.
pub fn in_threads_by<A: Send + Drop, F: Fn(&Shared<'_>, &mut Pass) -> A + Sync>(
    rt: &(impl Threads + Sync),
    alloc: Global,
    entities: &mut EntitiesRes,
    reserve: u32,
    passes: usize,
    turn: &F,
) -> Result<(Closed, Vec<A>), OpenError>
    requires takes { TakesPasses (F.pre turn.now) }
    requires keeps { KeepsPasses (F.post turn.now) }
    ensures ran { IfOk result (λ r. RanAPhase (CameOf (F.post turn.now)) reserve passes (population entities.old) (population entities.new) r.0 r.1.items) }
    ensures answers { IfOk result (λ r. length r.1.items ≡ passes) }
    ensures births { IfOk result (λ r. r.0.births ≤ reserve) }
    ensures back { IfOk result (λ r. r.0.passes_back ≡ passes) }
    ensures same { OnErr result (population entities.new ≡ population entities.old) }
    ensures room { entities.old.room ≤ entities.new.room }
    ensures takes { OnOk result (entities.new.room ≤ max entities.old.room (length entities.old.generations + reserve)) }
    ensures many { IfErr result (λ e. e ≡ OpenError.TooManyPasses → MOST_PASSES < passes) }
    ensures limit { IfErr result (λ e. e ≡ OpenError.IndexLimit → passes ≤ MOST_PASSES × givable (population entities.old) < reserve) }
    ensures memory { IfErr result (λ e. e ≡ OpenError.OutOfMemory → passes ≤ MOST_PASSES × reserve ≤ givable (population entities.old)) }
    ensures few { IfOk result (λ _. passes ≤ MOST_PASSES × reserve ≤ givable (population entities.old)) }
{
    match entities.open(alloc, reserve, passes) {
        Ok((shared, passes)) => run_open(rt, alloc, shared, passes, turn),
        Err(error) => Err(error),
    }
}

/// The same as `in_threads_by`, where a turn is of a type of one's own.
pub fn in_threads<T: Turn + Sync>(
    rt: &(impl Threads + Sync),
    alloc: Global,
    entities: &mut EntitiesRes,
    reserve: u32,
    passes: usize,
    turn: &T,
) -> Result<(Closed, Vec<T::Answer>), OpenError>
    ensures ran { IfOk result (λ r. RanAPhase (T.tells turn.now) reserve passes (population entities.old) (population entities.new) r.0 r.1.items) }
    ensures answers { IfOk result (λ r. length r.1.items ≡ passes) }
    ensures births { IfOk result (λ r. r.0.births ≤ reserve) }
    ensures back { IfOk result (λ r. r.0.passes_back ≡ passes) }
    ensures same { OnErr result (population entities.new ≡ population entities.old) }
    ensures room { entities.old.room ≤ entities.new.room }
    ensures takes { OnOk result (entities.new.room ≤ max entities.old.room (length entities.old.generations + reserve)) }
    ensures many { IfErr result (λ e. e ≡ OpenError.TooManyPasses → MOST_PASSES < passes) }
    ensures limit { IfErr result (λ e. e ≡ OpenError.IndexLimit → passes ≤ MOST_PASSES × givable (population entities.old) < reserve) }
    ensures memory { IfErr result (λ e. e ≡ OpenError.OutOfMemory → passes ≤ MOST_PASSES × reserve ≤ givable (population entities.old)) }
    ensures few { IfOk result (λ _. passes ≤ MOST_PASSES × reserve ≤ givable (population entities.old)) }
{
    in_threads_by(
        rt,
        alloc,
        entities,
        reserve,
        passes,
        &|shared: &Shared<'_>, pass: &mut Pass|
            requires { MayCall shared.now pass.old }
            ensures pass { IsPassOf (board_of shared.now) pass.new }
            ensures told { T.tells turn.entry.now (phase_opened shared.now) pass.new result }
        { turn.turn(shared, pass) },
    )
}
