//! Passes beside what their turns answer.
use entities::Pass;
use std::alloc::Global;

/// A pass, and what its turn answered.
#[derive(Drop)]
pub(crate) struct Seat<A> {
    pub(crate) pass: Pass,
    pub(crate) answer: Option<A>,
}

/// Passes at their turns, and the room to part them from their answers again.
#[derive(Drop)]
pub(crate) struct Seats<A> {
    pub(crate) taken: Vec<Seat<A>>,
    pub(crate) passes: Vec<Pass>,
    pub(crate) answers: Vec<A>,
}

impl<A: Drop> Seats<A> {
    ghost use Rattle.std.specs.Prelude.{◌≡◌, ◌<◌, ◌≤◌, [], IfOk, IfErr, IsSome, Some, map, vec_len, vec_capacity};
    ghost use Rattle.std.specs.List.{All};
    ghost use Rattle.phase_threads.specs.Seating.{HasRoom, passes_of, answers_of};

    /// Room for as many passes with their answers, or the passes where there is no memory for it.
    fn room_for(alloc: Global, passes: Vec<Pass>) -> Result<Seats<A>, Vec<Pass>>
        ensures passes { IfOk result (λ s. s.passes.items ≡ passes.items) }
        ensures empty { IfOk result (λ s. (s.taken.items ≡ []) × (s.answers.items ≡ [])) }
        ensures seats { IfOk result (λ s. vec_len passes ≤ vec_capacity s.taken) }
        ensures room { IfOk result (λ s. (vec_len passes ≤ vec_capacity s.passes) × (vec_len passes ≤ vec_capacity s.answers)) }
        ensures back { IfErr result (λ back. back ≡ passes) }
    {
        let count = passes.len();
        let Ok(taken) = Vec::with_capacity(alloc, count) else {
            return Err(passes);
        };
        match Vec::with_capacity(alloc, count) {
            Ok(answers) => Ok(Seats {
                taken,
                passes,
                answers,
            }),
            Err(_) => Err(passes),
        }
    }

    /// Seats each pass, which has no answer yet. Where there is no memory for that, they come back.
    pub(crate) fn of(alloc: Global, passes: Vec<Pass>) -> Result<Seats<A>, Vec<Pass>>
        ensures passes { IfOk result (λ s. passes_of s.taken.items ≡ passes.items) }
        ensures room { IfOk result HasRoom }
        ensures back { IfErr result (λ back. back ≡ passes) }
    {
        let mut seats = Seats::room_for(alloc, passes)?;
        while let Some(pass) = seats.passes.pop() {
            seats.taken.push_reserved(Seat { pass, answer: None });
        }
        Ok(seats)
    }

    /// Parts the passes from their answers, in the order in which they were before they were seated.
    pub(crate) fn parted(self) -> (Vec<Pass>, Vec<A>)
        requires room { HasRoom self }
        requires answered { All (λ s. IsSome s.answer) self.taken.items }
        ensures passes { result.0.items ≡ passes_of self.taken.items }
        ensures answers { map Some result.1.items ≡ answers_of self.taken.items }
    {
        let Seats {
            mut taken,
            mut passes,
            mut answers,
        } = self;
        while let Some(seat) = taken.pop() {
            let Seat { pass, answer } = seat;
            passes.push_reserved(pass);
            answers.push_reserved(answer.unwrap());
        }
        (passes, answers)
    }
}
