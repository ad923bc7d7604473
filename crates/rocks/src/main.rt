//! A game: rocks fly through space, ships that meet them win points, and the ships are saved and loaded into another space. Told how many rocks and
//! turns, as `rt run -- 10000 1000`, it plays so many and says what came of it.
#![tactic(auto)]

mod drawn;
mod parts;
mod turn;

use anyhow::Result;
use composed::{
    Builder, ComponentEvent, Doing, Empty, Entity, Has, Link, Pass, ReaderId, SavedText, Shared,
    Storages, World, in_threads_by, slot,
};
use drawn::Drawn;
use parts::{Cargo, Hunts, Label, Name, Position, Score, Stores, Velocity};
use std::alloc::{Alloc, Global};
use std::cmp::Reverse;
use std::env::{self, Env};
use std::marker::PhantomData;
use std::thread::Threads;
use turn::{Deed, Plays, SIZE, Seen, pairs, swept};

/// How many pairs were near in a turn, how many jobs were done, and how scores changed.
#[derive(Drop)]
struct Outcome {
    near: usize,
    jobs: u64,
    events: Vec<ComponentEvent>,
}

/// A space, and what is told of it. Its storages are any that have each type at a place: the prover is faster with them than with known ones.
#[derive(Drop)]
struct Game<S: Storages + Drop, P, V, N, C, T, O, L> {
    space: World<S, Doing<Deed<O>>>,
    text: String,
    alloc: Global,
    of: PhantomData<(P, V, N, C, T, L)>,
}

impl<S, P, V, N, C, T, O, L> Game<S, P, V, N, C, T, O, L>
where
    S: Storages
        + Has<Position, P>
        + Has<Velocity, V>
        + Has<Name, N>
        + Has<Cargo, C>
        + Has<Link<Hunts>, T>
        + Has<Score, O>
        + Has<Label, L>
        + Plays
        + Empty
        + Drop,
{
    /// What is told of so many rocks in so many turns, or of two ships.
    fn told(
        rt: &(impl Threads + Alloc<A = Global> + Sync),
        asked: Option<(u32, u32)>,
    ) -> Result<String> {
        let mut game = Self::new(rt.alloc())?;
        match asked {
            Some((rocks, turns)) => game.swarm(rocks, turns)?,
            None => game.story(rt)?,
        }
        Ok(game.text)
    }

    /// The story of two ships, and how they come into another space.
    fn story(&mut self, rt: &(impl Threads + Sync)) -> Result<()> {
        self.begin()?;
        self.play()?;
        self.look_out(rt)?;
        self.ending()?;
        let mut other = Self::new(self.alloc)?;
        other.space.create_entity()?.build();
        let from = self.space.parts().core.parts();
        let saved = S::carry(from, other.space.parts().core.parts(), self.alloc)?;
        other.ending()?;
        Ok(write!(self.text, "{saved}\n{}", other.text)?)
    }

    /// How many were near, how many jobs were done, how many changes of scores were told, and how many live at the end.
    fn swarm(&mut self, rocks: u32, turns: u32) -> Result<()> {
        let mut scores = self.space.write_storage::<Score, _>()?;
        let reader = scores.masked_mut().register_reader()?;
        self.fill(rocks)?;
        let (mut near, mut jobs, mut told) = (0usize, 0u64, 0usize);
        for _ in 0..turns {
            let turn = self.turn(3.0, &reader)?;
            near = near.saturating_add(turn.near);
            jobs = jobs.saturating_add(turn.jobs);
            told = told.saturating_add(turn.events.len());
        }
        let living = self.space.entities().alive().count();
        Ok(writeln!(
            self.text,
            "{near} near, {jobs} jobs, {told} events, {living} live"
        )?)
    }

    /// So many rocks, and a ship for each hundred of them.
    fn fill(&mut self, rocks: u32) -> Result<()> {
        let mut drawn = Drawn::new();
        for _ in 0..rocks {
            let rock = self.space.create_entity()?;
            let rock = rock.with(Position(drawn.below(SIZE), drawn.below(SIZE)))?;
            let way = Velocity(drawn.below(2.0) - 1.0, drawn.below(2.0) - 1.0);
            rock.with(way)?.build();
        }
        for _ in 0..rocks / 100 {
            let ship = self.ship("ship", Position(drawn.below(SIZE), drawn.below(SIZE)))?;
            let mut velocities = self.space.write_storage::<Velocity, _>()?;
            velocities.insert(ship, Velocity(0.5, 0.25))?;
        }
        Ok(())
    }

    /// An empty space.
    fn new(alloc: Global) -> Result<Self> {
        let mut space: World<S, Doing<Deed<O>>> = World::new(alloc, S::empty(alloc));
        space.register::<Position, _>()?;
        space.register::<Velocity, _>()?;
        space.register::<Name, _>()?;
        space.register::<Cargo, _>()?;
        space.register::<Link<Hunts>, _>()?;
        space.register::<Score, _>()?;
        space.register::<Label, _>()?;
        Ok(Game {
            space,
            text: String::new(alloc),
            alloc,
            of: PhantomData,
        })
    }

    /// A ship with a name, a cargo and a score, that stands still and is saved.
    fn ship(&mut self, name: &str, at: Position) -> Result<Entity> {
        let name = Name(SavedText::from_str(self.alloc, name)?);
        let cargo = Cargo(vec![in self.alloc; 1, 2, 3]?);
        let builder = self.space.create_entity()?.with(at)?.with(name)?;
        let ship = builder.with(cargo)?.with(Score(0))?.build();
        self.space.parts().core.mark(slot::<Label, S, L>(), ship)?;
        Ok(ship)
    }

    /// Two ships that hunt each other, and five rocks.
    fn begin(&mut self) -> Result<()> {
        let ada = self.ship("Ada", Position(0.0, 0.0))?;
        let bob = self.ship("Bob", Position(4.0, 0.0))?;
        let mut hunts = self.space.write_storage::<Link<Hunts>, _>()?;
        hunts.insert(ada, Link::new(bob))?;
        hunts.insert(bob, Link::new(ada))?;
        for i in 0..5 {
            let rock = self.space.create_entity()?;
            let rock = rock.with(Position(f64::from(i), 1.0))?;
            rock.with(Velocity(0.0, -0.5))?.build();
        }
        Ok(())
    }

    /// Three turns.
    fn play(&mut self) -> Result<()> {
        let mut scores = self.space.write_storage::<Score, _>()?;
        let reader = scores.masked_mut().register_reader()?;
        for number in 1..=3 {
            let turn = self.turn(0.75, &reader)?;
            self.tell(number, turn)?;
        }
        Ok(())
    }

    /// A turn: all move, those that are nearer than a distance meet and win or burst, and what waited is done.
    fn turn(&mut self, distance: f64, reader: &ReaderId) -> Result<Outcome> {
        S::step(&mut self.space.parts().core)?;
        let near = self.meetings(distance)?;
        let jobs = self.space.maintain(u64::MAX)?.ran;
        let mut scores = self.space.write_storage::<Score, _>()?;
        let events = scores.masked_mut().read(reader)?;
        Ok(Outcome { near, jobs, events })
    }

    /// Tells what came of a turn.
    fn tell(&mut self, number: u32, turn: Outcome) -> Result<()> {
        let (near, jobs) = (turn.near, turn.jobs);
        writeln!(self.text, "turn {number}: {near} near, {jobs} jobs")?;
        for event in turn.events {
            writeln!(self.text, "  {event:?}")?;
        }
        Ok(())
    }

    /// Ships meet rocks that are nearer than a distance. It answers how many pairs were near.
    fn meetings(&mut self, distance: f64) -> Result<usize> {
        let positions = self.space.read_storage()?;
        let list = swept(self.space.entities(), &positions, self.alloc)?;
        let met = pairs(&list, self.alloc, distance)?;
        let count = met.len();
        for (one, other) in met {
            self.meet(one, other)?;
        }
        Ok(count)
    }

    /// A ship that meets a rock is to get a point, the rock is to burst, and a piece of it is to fly on from there.
    fn meet(&mut self, one: Seen, other: Seen) -> Result<()> {
        let scores = self.space.read_storage::<Score, _>()?;
        let (ship, rock) = match (scores.contains(one.0), scores.contains(other.0)) {
            (true, false) => (one, other),
            (false, true) => (other, one),
            _ => return Ok(()),
        };
        let parts = self.space.parts();
        parts.lazy.exec(Doing(Deed::Burst(rock.0)))?;
        parts.lazy.exec(Doing(Deed::Point(ship.0, PhantomData)))?;
        let piece = parts.create_entity()?.with(rock.1)?;
        piece.with(Velocity(0.0, 2.0))?.build();
        Ok(())
    }

    /// Two look out, each in a thread. What they find flies from the far corner.
    fn look_out(&mut self, rt: &(impl Threads + Sync)) -> Result<()> {
        let entities = &mut self.space.parts().core.parts().entities;
        let look = |shared: &Shared<'_>, pass: &mut Pass| shared.create(pass).ok();
        let (closed, found) = in_threads_by(rt, self.alloc, entities, 2, 2, &look)?;
        self.space.maintain(0)?;
        for rock in found {
            let Some(rock) = rock else { continue };
            let mut positions = self.space.write_storage::<Position, _>()?;
            positions.insert(rock, Position(9.0, 9.0))?;
            let mut velocities = self.space.write_storage::<Velocity, _>()?;
            velocities.insert(rock, Velocity(-1.0, -1.0))?;
        }
        Ok(writeln!(self.text, "{} found in two threads", closed.births)?)
    }

    /// The ships with their points, the most first, and then who hunts whom.
    fn ending(&mut self) -> Result<()> {
        let names = self.space.read_storage::<Name, _>()?;
        let scores = self.space.read_storage::<Score, _>()?;
        let mut board = Vec::new(self.alloc);
        for id in scores.mask().iter() {
            if let Some(score) = scores.storage().get(id) {
                board.push((score.0, id))?;
            }
        }
        board.sort_by_key(|row| Reverse(row.0))?;
        let cargos = self.space.read_storage::<Cargo, _>()?;
        for (points, id) in board {
            if let (Some(name), Some(cargo)) = (names.storage().get(id), cargos.storage().get(id)) {
                writeln!(self.text, "{points:>5} {:?} with {:?}", name.0, cargo.0)?;
            }
        }
        let hunts = self.space.read_storage::<Link<Hunts>, _>()?;
        for id in hunts.mask().iter() {
            let link = hunts.storage().get(id);
            let hunted = link.and_then(|link: &Link<Hunts>| names.get(link.entity));
            if let (Some(one), Some(other)) = (names.storage().get(id), hunted) {
                writeln!(self.text, "{:?} ({id}) hunts {:?}", one.0, other.0)?;
            }
        }
        Ok(())
    }
}

/// How many rocks and turns the program's words ask for, if there are two of them.
fn asked(rt: &(impl Env + Alloc<A = Global>)) -> Result<Option<(u32, u32)>> {
    let mut words = env::args(rt)?.skip(1);
    let (Some(rocks), Some(turns)) = (words.next(), words.next()) else {
        return Ok(None);
    };
    Ok(Some((rocks.as_str().parse()?, turns.as_str().parse()?)))
}

fn main(rt: HostRuntime) -> Result<()> {
    let text = Game::<Stores, _, _, _, _, _, _, _>::told(&rt, asked(&rt)?)?;
    Ok(print!(rt; "{text}")?)
}
