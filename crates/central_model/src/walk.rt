//! One walk over a machine.

ghost use Rattle.std.specs.Prelude.{◌≡◌, ◌↔◌, ◌-◌, ◌<◌, ◌≤◌, ◌∷◌, [], length, None, IsTrue, IfOk, OnOk};
ghost use Rattle.place_name.specs.declared.limits.TheConstants.{HOPS as MOST_HOPS};
ghost use Rattle.asl_model.specs.Central.{scope, visits_of, hop_limit};
ghost use Rattle.asl_model.specs.Machine.{Block as ModelBlock, start_of, state_of};
ghost use Rattle.asl_model.specs.Names.{Answers};
ghost use Rattle.asl_model.specs.Step.{standard};
ghost use Rattle.asl_model.specs.Tree.{block_tree, state_tree};
ghost use Rattle.central_model.specs.Asking.{asking_of, AreAnswered};
ghost use Rattle.central_model.specs.Fits.{FitsIn, FitsUnder};
ghost use Rattle.central_model.specs.Views.{then_of};
ghost use Rattle.central_model.specs.Walked.{HasTickets, IsFit, Keeps, Made, Puts, AddsTask, Joins, Runs, Turns, Gathers, follows, enter_visit, walk_from, turn_in, turn_of, called_of, branch_runs, joined_of};

use crate::beginning::begin;
use crate::branching::branch;
use crate::combining::combine;
use crate::entering::{Entry, astray, entered};
use crate::finishing::finish;
use crate::gathering::Gathered;
use crate::onward::{Begun, Onward, Then, Used};
use crate::run::{End, Visit};
use crate::source::{Source, ask};
use crate::trouble::CentralError;
use crate::visiting::{enter_of, join_of, task_of};
use asl_model::Block;
use place_name::{HOPS, Scope, child};
use std::alloc::Global;
use unum_ir::failure;
use unum_json::{Items, Json, NoMemory, Outcome, Text, copy};

/// One walk over a machine.
#[derive(Drop)]
pub struct Walk<'a> {
    alloc: Global,
    /// Who answers Tasks.
    source: Source<'a>,
    /// How many visits it may make.
    limit: u64,
    /// The visits that it made, in the order of their names.
    visits: Vec<Visit>,
    /// How many of them are Tasks.
    count: u64,
}

/// How a Task goes on that has this answer, or waits for one.
fn follow<'m>(
    alloc: Global,
    entry: &Entry<'m>,
    answer: Option<Outcome>,
) -> Result<Then<'m>, NoMemory>
    ensures { IfOk result (λ u. then_of u ≡ follows entry.now answer) }
{
    let Some(answer) = answer else {
        let mut places = Items::new(alloc);
        places.push(entry.place)?;
        return Ok(Then::Stays(places));
    };
    let onward = finish(
        alloc,
        entry.name,
        entry.state,
        &entry.raw,
        &entry.used,
        &answer,
    );
    drop(answer);
    Ok(Then::On(onward?))
}

impl<'a> Walk<'a> {
    /// A walk that has made no visit.
    pub fn new(alloc: Global, source: Source<'a>, limit: u64) -> Walk<'a>
        requires { HasTickets source limit }
        ensures fit { IsFit result }
        ensures source { result.source ≡ source.entry }
        ensures limit { result.limit ≡ limit }
        ensures visits { result.visits.items ≡ [] }
        ensures count { result.count ≡ 0 }
    {
        Walk {
            alloc,
            source,
            limit,
            visits: Vec::new(alloc),
            count: 0,
        }
    }

    /// The visits that it made.
    pub fn into_visits(self) -> Items<Visit>
        ensures { result ≡ self.entry.visits.items }
    {
        let Walk { visits, .. } = self;
        Items::from_vec(visits)
    }

    /// Whether it has made as many visits as it may.
    fn is_full(&self) -> bool
        ensures { IsTrue result ↔ (self.now.limit ≤ length self.now.visits.items) }
    {
        self.visits.len() as u64 >= self.limit
    }

    /// Puts a visit before the one with that index.
    fn put(&mut self, at: usize, visit: Visit) -> Result<(), CentralError>
        requires within { at ≤ length self.old.visits.items }
        requires fit { IsFit self.old }
        ensures kept { OnOk result (Keeps self.old self.new) }
        ensures put { Puts self.old result self.new at visit }
    {
        if self.is_full() {
            drop(visit);
            return Err(CentralError::TooLong);
        }
        match self.visits.insert(at, visit) {
            Ok(()) => Ok(()),
            Err(refused) => {
                drop(refused);
                Err(CentralError::NoMemory)
            }
        }
    }

    /// Visits the Enter of a scope.
    fn enter(&mut self, at: &Scope, input: &Json) -> Result<(), CentralError>
        requires { IsFit self.old }
        ensures kept { OnOk result (Keeps self.old self.new) }
        ensures made { (b : ModelBlock) → Made self.old result self.new (enter_visit b at.now input.now ∷ []) (λ u. Unit {0}) }
    {
        let visit = enter_of(self.alloc, at, input)?;
        let at = self.visits.len();
        self.put(at, visit)
    }

    /// Adds the visit of a Task.
    fn add_task(&mut self, visit: Visit) -> Result<(), CentralError>
        requires { IsFit self.old }
        ensures kept { OnOk result (Keeps self.old self.new) }
        ensures added { AddsTask self.old result self.new visit }
    {
        let at = self.visits.len();
        self.put(at, visit)?;
        self.count += 1;
        Ok(())
    }

    /// Visits the Task that a state calls with its effective input. A walk that is at its limit asks nobody.
    ///
    /// Source: Amazon States Language, "Task State".
    fn task<'m>(
        &mut self,
        entry: &Entry<'m>,
        resource: &Text,
        input: Json,
    ) -> Result<Then<'m>, CentralError>
        requires { IsFit self.old }
        ensures kept { OnOk result (Keeps self.old self.new) }
        ensures turn { (b : ModelBlock) (A : Answers) → AreAnswered (asking_of self.old.source) self.old.count (called_of b A entry.now resource.now input).visits → Turns self.old result self.new (called_of b A entry.now resource.now input) }
    {
        let alloc = self.alloc;
        if self.is_full() {
            drop(input);
            return Err(CentralError::TooLong);
        }
        let asked = ask(
            alloc,
            self.source,
            &entry.place,
            resource,
            &input,
            self.count,
        );
        let Ok(answer) = asked else {
            drop(input);
            return Err(CentralError::NoMemory);
        };
        let visit = task_of(alloc, entry.place, resource, input, &answer)?;
        self.add_task(visit)?;
        Ok(follow(alloc, entry, answer)?)
    }

    /// Visits the Join of a fan whose branches ended with these outcomes, before the visits of the branches.
    ///
    /// Source: Amazon States Language, "Parallel State" and "Map State".
    fn join<'m>(
        &mut self,
        entry: &Entry<'m>,
        at: usize,
        outcomes: Items<Outcome>,
    ) -> Result<Then<'m>, CentralError>
        requires within { at ≤ length self.old.visits.items }
        requires fit { IsFit self.old }
        ensures kept { OnOk result (Keeps self.old self.new) }
        ensures joined { Joins self.old result self.new entry.now at outcomes }
    {
        let alloc = self.alloc;
        let answer = combine(alloc, entry.name, outcomes)?;
        let Ok(visit) = join_of(alloc, entry.place, &entry.raw, &answer) else {
            drop(answer);
            return Err(CentralError::NoMemory);
        };
        if let Err(error) = self.put(at, visit) {
            drop(answer);
            return Err(error);
        }
        Ok(follow(alloc, entry, Some(answer))?)
    }

    /// The run of a scope of a block.
    #[cycle(scopes)]
    pub fn scope(&mut self, block: &Block, at: &Scope, input: &Json) -> Result<End, CentralError>
        requires fit { IsFit self.old }
        requires fits { FitsIn (8 - length at.now.trail) (block_tree block.now) }
        ensures kept { OnOk result (Keeps self.old self.new) }
        ensures run { (A : Answers) → AreAnswered (asking_of self.old.source) self.old.count (scope standard A (block_tree block.now) at.now input.now).visits → Runs self.old result self.new (scope standard A (block_tree block.now) at.now input.now) }
    {
        self.enter(at, input)?;
        let raw = copy(self.alloc, input)?;
        self.states(block, at, raw)
    }

    /// The states of a scope, one after another.
    ///
    /// Source: Amazon States Language, "Transitions".
    #[cycle(scopes)]
    #[tactic(auto, unfolding(asl_model::specs::Central::hop_limit, asl_model::specs::Data::hop_limit_error))]
    fn states(&mut self, block: &Block, at: &Scope, raw: Json) -> Result<End, CentralError>
        requires fit { IsFit self.old }
        requires fits { FitsIn (8 - length at.now.trail) (block_tree block.now) }
        ensures kept { OnOk result (Keeps self.old self.new) }
        ensures run { (A : Answers) → AreAnswered (asking_of self.old.source) self.old.count (walk_from A (block_tree block.now) hop_limit at.now (start_of (block_tree block.now)) 0 raw None).visits → Runs self.old result self.new (walk_from A (block_tree block.now) hop_limit at.now (start_of (block_tree block.now)) 0 raw None) }
    {
        let mut name = &block.start;
        let mut raw = raw;
        let mut again = None;
        for hop in 0..HOPS {
            match self.state(block, at, name, hop, raw, again)? {
                Then::Stays(places) => return Ok(End::Waits(places)),
                Then::On(Onward::Ends(outcome)) => return Ok(End::Ended(outcome)),
                Then::On(
                    Onward::Goes {
                        next,
                        data,
                        again: used,
                    },
                ) => {
                    name = next;
                    raw = data;
                    again = used;
                }
            }
        }
        drop(again);
        drop(raw);
        let ended = failure(self.alloc, "Unum.HopLimit", name.as_str())?;
        Ok(End::Ended(ended))
    }

    /// What entering the state of that name comes to.
    #[cycle(scopes)]
    fn state<'m>(
        &mut self,
        block: &'m Block,
        at: &Scope,
        name: &'m Text,
        hop: u32,
        raw: Json,
        again: Option<Used>,
    ) -> Result<Then<'m>, CentralError>
        requires hop { hop < MOST_HOPS }
        requires fit { IsFit self.old }
        requires fits { FitsIn (8 - length at.now.trail) (block_tree block.now) }
        ensures kept { OnOk result (Keeps self.old self.new) }
        ensures turn { (A : Answers) → AreAnswered (asking_of self.old.source) self.old.count (turn_in A (block_tree block.now) name.now (state_of (block_tree block.now) name.now) at.now hop raw again).visits → Turns self.old result self.new (turn_in A (block_tree block.now) name.now (state_of (block_tree block.now) name.now) at.now hop raw again) }
    {
        let alloc = self.alloc;
        let Some(entry) = entered(alloc, block, at, name, hop, raw, again)? else {
            return Ok(Then::On(astray(alloc, name)?));
        };
        let made = self.turn(&entry);
        drop(entry);
        made
    }

    /// What a state that was entered comes to.
    #[cycle(scopes)]
    fn turn<'m>(&mut self, entry: &Entry<'m>) -> Result<Then<'m>, CentralError>
        requires fit { IsFit self.old }
        requires fits { FitsUnder (7 - length entry.now.place.trail) (state_tree entry.now.state.now) }
        ensures kept { OnOk result (Keeps self.old self.new) }
        ensures turn { (b : ModelBlock) (A : Answers) → AreAnswered (asking_of self.old.source) self.old.count (turn_of b A entry.now).visits → Turns self.old result self.new (turn_of b A entry.now) }
    {
        match begin(self.alloc, entry.name, entry.state, &entry.raw)? {
            Begun::On(onward) => Ok(Then::On(onward)),
            Begun::Calls { resource, input } => self.task(entry, resource, input),
            Begun::Fans(inputs) => self.fan(entry, inputs),
        }
    }

    /// What a fan with these inputs comes to.
    ///
    /// Source: Amazon States Language, "Parallel State" and "Map State".
    #[cycle(scopes)]
    fn fan<'m>(&mut self, entry: &Entry<'m>, inputs: Items<Json>) -> Result<Then<'m>, CentralError>
        requires fit { IsFit self.old }
        requires fits { FitsUnder (7 - length entry.now.place.trail) (state_tree entry.now.state.now) }
        requires few { length inputs ≤ 1000 }
        ensures kept { OnOk result (Keeps self.old self.new) }
        ensures turn { (b : ModelBlock) (A : Answers) → AreAnswered (asking_of self.old.source) self.old.count (joined_of b A entry.now inputs).visits → Turns self.old result self.new (joined_of b A entry.now inputs) }
    {
        let first = self.visits.len();
        let gathered = self.branches(entry, &inputs);
        drop(inputs);
        match gathered? {
            Gathered::Waits(places) => Ok(Then::Stays(places)),
            Gathered::Ended(outcomes) => self.join(entry, first, outcomes),
        }
    }

    /// The runs of a fan's branches, one after another.
    #[cycle(scopes)]
    fn branches(
        &mut self,
        entry: &Entry<'_>,
        inputs: &Items<Json>,
    ) -> Result<Gathered, CentralError>
        requires fit { IsFit self.old }
        requires fits { FitsUnder (7 - length entry.now.place.trail) (state_tree entry.now.state.now) }
        requires few { length inputs.now ≤ 1000 }
        ensures kept { OnOk result (Keeps self.old self.new) }
        ensures runs { (A : Answers) → AreAnswered (asking_of self.old.source) self.old.count (visits_of (branch_runs A entry.now inputs.now)) → Gathers self.old result self.new (branch_runs A entry.now inputs.now) }
    {
        let mut gathered = Gathered::Ended(Items::new(self.alloc));
        let count = inputs.len();
        for (index, input) in inputs.as_slice().iter().enumerate() {
            if let Some(block) = branch(entry.state, index, count) {
                let scope = child(&entry.place, index as u32, count as u32).scope();
                let end = self.scope(block, &scope, input)?;
                gathered = gathered.and(end)?;
            }
        }
        Ok(gathered)
    }
}
