//! The parts of a world, and what each step does to them.
ghost use Rattle.lease_core.specs.Lease.{longest_lease};
ghost use Rattle.std.specs.Prelude.{◌≡◌, ◌≤◌, ◌<◌, ◌+◌, ◌∷◌, ◌++◌, [], length, filter, true, false, Some, None, Ok, Err, IfOk, IfErr, OnOk, OnErr, is_some};
ghost use Rattle.std.specs.Vec.{vec_len, vec_capacity};
ghost use Rattle.rows_cell.specs.Settings.{terms_of};
ghost use Rattle.rows_cell.specs.declared.tables.Rows.{Rows};
ghost use Rattle.world_steps.specs.World.{opened, store_in, with_refusal, world_join, world_ask, world_beat, world_tick, world_take, world_beats, world_give, world_sweep, world_down, without_master, is_of_commit, world_cut_sweep, moves_nobody, are_fair, goes_past_end, ticked, step_edits, step_frees, IsStored, IsLeft, MayRefuseStep, Agrees};
ghost use Rattle.world_steps.specs.Made.{IsTyped, WasMade, WasRefused};
ghost use Rattle.world_steps.specs.Crash.{left_at, crashed, IsCrash, IsNoCrash};

use crate::crashes::Crashes;
use crate::mail;
use crate::mail::Message;
use crate::members::WorldClients;
use crate::steps::{Commit, Step, Ticks};
use client_core::{Ask, AskOutcome, Beaten, Given, Outcome};
use collections::Items;
use lease_core::MOMENT_LIMIT;
use names_cell::Principal;
use node_core::{Fault, Line};
use over_core::Cell;
use rows_cell::{MasterTerms, Records, Settings};
use std::alloc::{AllocError, Global};
use std::marker::Model;
use tags_cell::ClientNumber;

/// The most messages that a master sends at once to one that came.
const MESSAGES_A_TAKE: usize = 1;

/// The most lines that a client prints beside its refusal of a call or a message: that of its noting the time.
const LINES_BESIDE_A_REFUSAL: usize = 1;

/// What a sweep prints, and whether it found nothing to do.
#[derive(Drop)]
pub struct SweepResult {
    pub lines: Items<Line>,
    pub quiet: bool,
}

/// The parts of a world: records, at most one master, clients, and every message that was sent. To a contract, plain
/// lists of these.
#[derive(Drop)]
pub struct WorldParts<R: Records> {
    alloc: Global,
    master: Option<Cell<R>>,
    records: Option<R>,
    clock: u64,
    clients: WorldClients,
    messages: Vec<Message>,
    terms: MasterTerms,
}

impl<R: Records> Model for WorldParts<R> {
    ghost use Rattle.std.specs.Prelude.{◌≡◌, ◌≤◌, not, is_some};
    ghost use Rattle.std.specs.Option.{option_map};
    ghost use Rattle.world_steps.specs.World.{WorldView, held, view_of};

    ghost Value = { WorldView };

    ghost view = { λ w. view_of (held (option_map (λ c. c.store) w.master) (option_map R.store w.records)) (option_map (λ c. c.master) w.master) w.clock w.clients w.messages.items w.terms };

    ghost invariant = { λ w. (is_some w.records ≡ not (is_some w.master)) × (1000 ≤ w.terms.lease) × (w.terms.lease ≤ 60000) };
}

impl<R: Records + Drop> WorldParts<R> {
    /// No master is up, no client has joined, nothing was sent. Takes no memory yet.
    pub fn new(alloc: Global, records: R, settings: &Settings) -> WorldParts<R>
        ensures is { result ≡ opened (R.store records) (terms_of settings.now) }
        ensures range { settings.now.lease ≤ longest_lease }
    {
        WorldParts {
            alloc,
            master: None,
            records: Some(records),
            clock: 0,
            clients: WorldClients::new(alloc),
            messages: Vec::new(alloc),
            terms: settings.terms(),
        }
    }

    /// One step, by the table of steps. What a client refuses by itself is no refusal of the step: it is a line, and the last
    /// one. A refusal changes nothing but perhaps the store's count of its refusals, or what was read.
    #[tactic(auto, using(crate::proofs::AsRead::made_now, crate::proofs::AsRead::untyped, crate::proofs::AsRead::refused_now), unfolding(crate::specs::World::world_step))]
    pub fn step(&mut self, step: &Step) -> Result<Items<Line>, Fault>
        ensures made { IfOk result (λ lines. WasMade self.old step.now self.new lines) }
        ensures refused { IfErr result (λ e. WasRefused self.old step.now self.new (Line.Refused e ∷ [])) }
    {
        match step {
            Step::Up(now) => self.up(*now),
            Step::Join(number, principal) => self.join(*number, principal),
            Step::Ask(number, ask) => self.ask(*number, ask),
            Step::Beat(number) => self.beat(*number),
            Step::Tick(ticks) => self.tick(ticks),
            Step::Take(number) => self.take(*number),
            Step::Give(number) => self.give(*number),
            Step::Sweep => Ok(self.sweep()?.lines),
            Step::Beats => self.beats(),
            Step::Down => self.down(),
            Step::CutSweep(commit) => self.cut_sweep(*commit),
            Step::CutUp(now, commit) => self.cut_up(*now, *commit),
        }
    }

    /// The step by which the master sweeps, with word of whether it found nothing to do.
    pub fn sweep(&mut self) -> Result<SweepResult, Fault>
        ensures ok { IfOk result (λ turn. world_sweep self.old.world self.old.world.master ≡ Ok (self.new.world, turn)) }
        ensures stored { OnOk result (IsStored (step_frees self.old.world Step.Sweep) (step_edits self.old.world Step.Sweep) self.old self.new) }
        ensures fault { IfErr result (λ e. MayRefuseStep (world_sweep self.old.world self.old.world.master) Step.Sweep e self.old self.new) }
        ensures left { OnErr result (IsLeft (step_frees self.old.world Step.Sweep) (step_edits self.old.world Step.Sweep) self.old self.new) }
    {
        let Some(cell) = &mut self.master else {
            return Err(Fault::MasterDown);
        };
        let swept = cell.sweep_with_room(self.clock, &mut self.messages)?;
        mail::send_all(&mut self.messages, swept.outs);
        Ok(SweepResult {
            lines: swept.lines,
            quiet: swept.quiet,
        })
    }

    /// All messages that were sent, in order.
    pub fn messages(&self) -> &[Message]
        ensures { result.now ≡ self.now.world.messages }
    {
        self.messages.as_slice()
    }

    /// Whether a master is up.
    pub fn is_up(&self) -> bool
        ensures { result ≡ is_some self.now.world.master }
    {
        self.master.is_some()
    }

    /// The records, with the rows that stand. A master that is up is gone.
    pub fn close(self) -> R
        ensures { R.store result ≡ store_in self }
    {
        let WorldParts {
            alloc: _,
            master,
            records,
            clock: _,
            clients: _,
            messages: _,
            terms: _,
        } = self;
        match master {
            Some(cell) => cell.down(),
            None => records.unwrap(),
        }
    }

    /// Its allocator.
    pub fn alloc(&self) -> Global {
        self.alloc
    }

    /// What the master knows of its rows is what they hold.
    pub fn kept(&self)
        ensures { Agrees self.now.world self.now.world.master }
    {
        if let Some(cell) = &self.master {
            cell.kept();
        }
    }

    #[tactic(auto, using(crate::proofs::AsRead::made_now, crate::proofs::AsRead::untyped, crate::proofs::AsRead::refused_now), unfolding(crate::specs::World::world_step))]
    fn up(&mut self, now: u64) -> Result<Items<Line>, Fault>
        ensures made { IfOk result (λ lines. WasMade self.old (Step.Up now) self.new lines) }
        ensures refused { IfErr result (λ e. WasRefused self.old (Step.Up now) self.new (Line.Refused e ∷ [])) }
    {
        let mut lines = Items::new(self.alloc);
        lines.push(Line::Down)?;
        match self.records.take() {
            None => Err(Fault::MasterUp),
            Some(records) => match Cell::up(self.alloc, records, self.terms, now) {
                Ok(cell) => {
                    cell.kept();
                    lines.set(0, Line::Up(cell.epoch()));
                    drop(self.master.replace(cell));
                    self.clock = now;
                    self.clients.come_up(now);
                    Ok(lines)
                }
                Err((fault, records)) => {
                    drop(self.records.replace(records));
                    Err(fault)
                }
            },
        }
    }

    // The master is gone, and the records are by themselves again.
    fn down(&mut self) -> Result<Items<Line>, Fault>
        ensures ok { IfOk result (λ lines. world_down self.old.world self.old.world.master ≡ Ok (self.new.world, lines)) }
        ensures stored { OnOk result (IsStored false [] self.old self.new) }
        ensures fault { IfErr result (λ e. MayRefuseStep (world_down self.old.world self.old.world.master) Step.Down e self.old self.new) }
        ensures left { OnErr result (IsLeft false [] self.old self.new) }
    {
        let mut lines = Items::new(self.alloc);
        lines.push(Line::Down)?;
        match self.master.take() {
            None => Err(Fault::MasterDown),
            Some(cell) => {
                drop(self.records.replace(cell.down()));
                Ok(lines)
            }
        }
    }

    // A sweep that a crash cuts.
    #[tactic(auto, using(crate::proofs::AsRead::made_now, crate::proofs::AsRead::untyped, crate::proofs::AsRead::refused_now), unfolding(crate::specs::World::world_step))]
    fn cut_sweep(&mut self, commit: Commit) -> Result<Items<Line>, Fault>
        ensures made { IfOk result (λ lines. WasMade self.old (Step.CutSweep commit) self.new lines) }
        ensures refused { IfErr result (λ e. WasRefused self.old (Step.CutSweep commit) self.new (Line.Refused e ∷ [])) }
    {
        match commit {
            Commit::Kept => self.cut_kept_sweep(),
            Commit::Lost => self.down(),
        }
    }

    // Its commit stands. The room for its lines is made before it.
    fn cut_kept_sweep(&mut self) -> Result<Items<Line>, Fault>
        ensures ok { IfOk result (λ lines. world_cut_sweep self.old.world Commit.Kept ≡ Ok (self.new.world, lines)) }
        ensures stored { OnOk result (IsStored (step_frees self.old.world (Step.CutSweep Commit.Kept)) (step_edits self.old.world (Step.CutSweep Commit.Kept)) self.old self.new) }
        ensures fault { IfErr result (λ e. MayRefuseStep (world_cut_sweep self.old.world Commit.Kept) (Step.CutSweep Commit.Kept) e self.old self.new) }
        ensures left { OnErr result (IsLeft (step_frees self.old.world (Step.CutSweep Commit.Kept)) (step_edits self.old.world (Step.CutSweep Commit.Kept)) self.old self.new) }
    {
        let Some(cell) = &mut self.master else {
            return Err(Fault::MasterDown);
        };
        let mut room = Vec::new(self.alloc);
        let swept = cell.sweep_with_room(self.clock, &mut room)?;
        drop(swept.outs);
        self.let_go();
        Ok(cut_lines(swept.lines, room))
    }

    // The master, where one is up, is gone, and the records are by themselves again.
    fn let_go(&mut self)
        ensures { self.new ≡ record self.old { world = without_master self.old.world } }
    {
        if let Some(cell) = self.master.take() {
            let records = cell.down();
            drop(self.records.replace(records));
        }
    }

    // A master that comes up, and that a crash cuts.
    fn cut_up(&mut self, now: u64, commit: Commit) -> Result<Items<Line>, Fault>
        ensures made { IfOk result (λ lines. WasMade self.old (Step.CutUp now commit) self.new lines) }
        ensures refused { IfErr result (λ e. WasRefused self.old (Step.CutUp now commit) self.new (Line.Refused e ∷ [])) }
    {
        match commit {
            Commit::Kept => self.cut_kept_up(now),
            Commit::Lost => self.cut_lost_up(now),
        }
    }

    // The next epoch stands.
    #[tactic(auto, using(crate::proofs::AsRead::made_now, crate::proofs::AsRead::untyped, crate::proofs::AsRead::refused_now), unfolding(crate::specs::World::world_step))]
    fn cut_kept_up(&mut self, now: u64) -> Result<Items<Line>, Fault>
        ensures made { IfOk result (λ lines. WasMade self.old (Step.CutUp now Commit.Kept) self.new lines) }
        ensures refused { IfErr result (λ e. WasRefused self.old (Step.CutUp now Commit.Kept) self.new (Line.Refused e ∷ [])) }
    {
        let mut lines = Items::new(self.alloc);
        lines.push(Line::Down)?;
        lines.push(Line::Down)?;
        match self.records.take() {
            None => Err(Fault::MasterUp),
            Some(records) => match Cell::up(self.alloc, records, self.terms, now) {
                Ok(cell) => {
                    lines.set(0, Line::Up(cell.epoch()));
                    let records = cell.down();
                    drop(self.records.replace(records));
                    Ok(lines)
                }
                Err((fault, records)) => {
                    drop(self.records.replace(records));
                    Err(fault)
                }
            },
        }
    }

    // Nothing is committed.
    #[tactic(auto, using(crate::proofs::AsRead::made_now, crate::proofs::AsRead::untyped, crate::proofs::AsRead::refused_now), unfolding(crate::specs::World::world_step))]
    fn cut_lost_up(&mut self, now: u64) -> Result<Items<Line>, Fault>
        ensures made { IfOk result (λ lines. WasMade self.old (Step.CutUp now Commit.Lost) self.new lines) }
        ensures refused { IfErr result (λ e. WasRefused self.old (Step.CutUp now Commit.Lost) self.new (Line.Refused e ∷ [])) }
    {
        let mut lines = Items::new(self.alloc);
        lines.push(Line::Down)?;
        match self.records.take() {
            None => Err(Fault::MasterUp),
            Some(mut records) => match Cell::could_come_up(&mut records, now) {
                Ok(()) => {
                    drop(self.records.replace(records));
                    Ok(lines)
                }
                Err(fault) => {
                    drop(self.records.replace(records));
                    Err(fault)
                }
            },
        }
    }

    fn join(&mut self, number: ClientNumber, principal: &Principal) -> Result<Items<Line>, Fault>
        ensures ok { IfOk result (λ lines. world_join self.old.world number principal.now ≡ Ok (self.new.world, lines)) }
        ensures stored { OnOk result (IsStored false [] self.old self.new) }
        ensures fault { IfErr result (λ e. MayRefuseStep (world_join self.old.world number principal.now) (Step.Join number principal.now) e self.old self.new) }
        ensures left { OnErr result (IsLeft false [] self.old self.new) }
    {
        if self.clients.is_taken(number) {
            return Err(Fault::Exists);
        }
        self.clients.join(number, principal, self.clock)?;
        Ok(Items::new(self.alloc))
    }

    #[tactic(auto, using(crate::proofs::MemberAnswers::ask_few))]
    fn ask(&mut self, number: u64, ask: &Ask) -> Result<Items<Line>, Fault>
        ensures ok { IfOk result (λ lines. world_ask self.old.world number ask.now ≡ Ok (self.new.world, lines)) }
        ensures stored { OnOk result (IsStored false [] self.old self.new) }
        ensures fault { IfErr result (λ e. MayRefuseStep (world_ask self.old.world number ask.now) (Step.Ask number ask.now) e self.old self.new) }
        ensures left { OnErr result (IsLeft false [] self.old self.new) }
    {
        let room = room(self.alloc)?;
        self.messages.reserve(1)?;
        match self.clients.ask(number, ask) {
            None => Err(Fault::NoSession),
            Some(Err(fault)) => Err(fault),
            Some(Ok(AskOutcome { lines, outcome })) => match outcome {
                Outcome::Sent(request) => {
                    mail::send(&mut self.messages, request);
                    Ok(lines)
                }
                Outcome::Served(answer) => {
                    drop(answer);
                    Ok(lines)
                }
                Outcome::Answered => Ok(lines),
                Outcome::Refused(fault) => Ok(refused_behind(lines, fault, room)),
            },
        }
    }

    fn beat(&mut self, number: u64) -> Result<Items<Line>, Fault>
        ensures ok { IfOk result (λ lines. world_beat self.old.world number ≡ Ok (self.new.world, lines)) }
        ensures stored { OnOk result (IsStored false [] self.old self.new) }
        ensures fault { IfErr result (λ e. MayRefuseStep (world_beat self.old.world number) (Step.Beat number) e self.old self.new) }
        ensures left { OnErr result (IsLeft false [] self.old self.new) }
    {
        self.messages.reserve(1)?;
        match self.clients.beat(number) {
            None => Err(Fault::NoSession),
            Some(Err(fault)) => Err(fault),
            Some(Ok(Beaten { lines, request })) => {
                if let Some(request) = request {
                    mail::send(&mut self.messages, request);
                }
                Ok(lines)
            }
        }
    }

    fn tick(&mut self, ticks: &Ticks) -> Result<Items<Line>, Fault>
        ensures ok { IfOk result (λ lines. world_tick self.old.world ticks.now ≡ Ok (self.new.world, lines)) }
        ensures stored { OnOk result (IsStored false [] self.old self.new) }
        ensures fault { IfErr result (λ e. MayRefuseStep (world_tick self.old.world ticks.now) (Step.Tick ticks.now) e self.old self.new) }
        ensures left { OnErr result (IsLeft false [] self.old self.new) }
    {
        if self.moves_nobody(ticks) {
            return Err(Fault::MasterDown);
        }
        if !self.clients.are_joined(ticks.own.as_slice()) {
            return Err(Fault::NoSession);
        }
        if !self.are_fair(ticks) {
            return Err(Fault::UnfairClock);
        }
        if self.goes_past_end(ticks) {
            return Err(Fault::Exhausted);
        }
        self.move_clocks(ticks);
        Ok(Items::new(self.alloc))
    }

    // Whether it would move the clock of a master where none is up.
    fn moves_nobody(&self, ticks: &Ticks) -> bool
        ensures { result ≡ moves_nobody self.now.world.master ticks.now }
    {
        match &self.master {
            None => 0 < ticks.master,
            Some(_) => false,
        }
    }

    fn are_fair(&self, ticks: &Ticks) -> bool
        ensures { result ≡ are_fair self.now.world.master self.now.world ticks.now }
    {
        match &self.master {
            None => true,
            Some(_) => self.clients.stay_fair(ticks, self.clock),
        }
    }

    fn goes_past_end(&self, ticks: &Ticks) -> bool
        ensures { result ≡ goes_past_end self.now.world ticks.now }
    {
        let then = self.clock as u128 + ticks.master as u128;
        if MOMENT_LIMIT as u128 <= then {
            return true;
        }
        self.clients.any_goes_past_end(ticks)
    }

    // The clocks move, where none goes past the end of moments.
    fn move_clocks(&mut self, ticks: &Ticks)
        ensures { goes_past_end self.old.world ticks.now ≡ false → self.new ≡ record self.old { world = ticked self.old.world ticks.now } }
    {
        let now = self.clock.saturating_add(ticks.master);
        self.clock = now;
        match &self.master {
            None => self.clients.move_alone(ticks),
            Some(_) => self.clients.move_beside(ticks, now),
        }
    }

    // The master answers a Beat, and commits nothing.
    fn beats(&mut self) -> Result<Items<Line>, Fault>
        ensures ok { IfOk result (λ lines. world_beats self.old.world self.old.world.master ≡ Ok (self.new.world, lines)) }
        ensures stored { OnOk result (IsStored false [] self.old self.new) }
        ensures fault { IfErr result (λ e. MayRefuseStep (world_beats self.old.world self.old.world.master) Step.Beats e self.old self.new) }
        ensures left { OnErr result (IsLeft false [] self.old self.new) }
    {
        match &mut self.master {
            None => Err(Fault::MasterDown),
            Some(cell) => {
                let swept = cell.beats_with_room(self.clock, &mut self.messages)?;
                mail::send_all(&mut self.messages, swept.outs);
                Ok(swept.lines)
            }
        }
    }

    #[tactic(auto, using(crate::proofs::OneMessage::take_few))]
    fn take(&mut self, number: u64) -> Result<Items<Line>, Fault>
        ensures ok { IfOk result (λ lines. world_take self.old.world number self.old.world.master ≡ Ok (self.new.world, lines)) }
        ensures typed { OnOk result (IsTyped self.old.world (Step.Take number)) }
        ensures stored { OnOk result (IsStored false [] self.old self.new) }
        ensures fault { IfErr result (λ e. MayRefuseStep (world_take self.old.world number self.old.world.master) (Step.Take number) e self.old self.new) }
        ensures left { OnErr result (IsLeft false [] self.old self.new) }
    {
        match &mut self.master {
            None => Err(Fault::MasterDown),
            Some(cell) => {
                self.messages.reserve(MESSAGES_A_TAKE)?;
                let Some(request) = mail::request_at(self.messages.as_slice(), number) else {
                    return Err(Fault::NoSuchMessage);
                };
                let _client = request.client().get();
                let taken = cell.take(self.clock, request)?;
                mail::send_all(&mut self.messages, taken.outs);
                Ok(taken.lines)
            }
        }
    }

    #[tactic(auto, using(crate::proofs::MemberAnswers::give_few))]
    fn give(&mut self, number: u64) -> Result<Items<Line>, Fault>
        ensures ok { IfOk result (λ lines. world_give self.old.world number ≡ Ok (self.new.world, lines)) }
        ensures stored { OnOk result (IsStored false [] self.old self.new) }
        ensures fault { IfErr result (λ e. MayRefuseStep (world_give self.old.world number) (Step.Give number) e self.old self.new) }
        ensures left { OnErr result (IsLeft false [] self.old self.new) }
    {
        let room = room(self.alloc)?;
        let Some(out) = mail::out_at(self.messages.as_slice(), number) else {
            return Err(Fault::NoSuchMessage);
        };
        match self.clients.give(out.client(), out) {
            None => Err(Fault::NoSession),
            Some(Err(fault)) => Err(fault),
            Some(Ok(Given { lines, refused })) => match refused {
                Some(fault) => Ok(refused_behind(lines, fault, room)),
                None => Ok(lines),
            },
        }
    }
}

impl<R: Crashes + Drop> WorldParts<R> {
    /// A crash that leaves the rows of this number, counted from 1, of those that it may leave: the master is gone, if one was
    /// up, and these rows stand. Clients, clocks and messages stay. Refused, with nothing changed, where there are no rows of
    /// the number, as NoSuchMessage, and for want of memory.
    pub fn crash(&mut self, number: u64) -> Result<Items<Line>, Fault>
        ensures ok { IfOk result (λ lines. IsCrash number self.old self.new lines) }
        ensures refused { IfErr result (λ e. IsNoCrash number e self.old self.new) }
    {
        if !self.may_leave(number) {
            return Err(Fault::NoSuchMessage);
        }
        let mut lines = Items::new(self.alloc);
        if self.is_up() {
            lines.push(Line::Down)?;
        }
        self.let_go();
        self.leave(number);
        Ok(lines)
    }

    // Whether there are rows of this number among those that a crash may leave.
    fn may_leave(&self, number: u64) -> bool
        ensures { result ≡ is_some (left_at self.now.may_leave number) }
    {
        if let Some(cell) = &self.master {
            return cell.records().may_leave(number);
        }
        match &self.records {
            Some(records) => records.may_leave(number),
            None => false,
        }
    }

    // The rows of this number stand, where no master is up.
    fn leave(&mut self, number: u64)
        requires none { self.old.world.master ≡ None }
        requires there { is_some (left_at self.old.may_leave number) ≡ true }
        ensures { (rows : Rows) × (left_at self.old.may_leave number ≡ Some rows) × (self.new ≡ crashed self.old rows) }
    {
        if let Some(records) = &mut self.records {
            records.crash(number);
        }
    }
}

// The lines of a sweep's commit, and that the master is gone; takes no memory.
fn cut_lines(lines: Items<Line>, room: Vec<Line>) -> Items<Line>
    requires empty { room.items ≡ [] }
    requires room { vec_len room + length lines < vec_capacity room }
    ensures { result ≡ filter is_of_commit lines ++ Line.Down ∷ [] }
{
    let mut told = room;
    for line in lines.into_vec() {
        if is_of_commit(&line) {
            told.push_reserved(line);
        } else {
            drop(line);
        }
    }
    told.push_reserved(Line::Down);
    Items::from_vec(told)
}

// Whether a line of a sweep tells of its commit.
fn is_of_commit(line: &Line) -> bool
    ensures { result ≡ is_of_commit line.now }
{
    match line {
        Line::Recovered => false,
        _ => true,
    }
}

// Room for a client's lines and its refusal after them.
fn room(alloc: Global) -> Result<Vec<Line>, AllocError>
    ensures empty { IfOk result (λ room. room.items ≡ []) }
    ensures room { IfOk result (λ room. vec_len room + 1 < vec_capacity room) }
{
    let mut room = Vec::new(alloc);
    room.reserve(LINES_BESIDE_A_REFUSAL + 1)?;
    Ok(room)
}

// A client's lines, and its refusal after them; takes no memory.
fn refused_behind(lines: Items<Line>, fault: Fault, room: Vec<Line>) -> Items<Line>
    requires empty { room.items ≡ [] }
    requires room { vec_len room + length lines < vec_capacity room }
    ensures { result ≡ with_refusal lines fault }
{
    let mut told = room;
    for line in lines.into_vec() {
        told.push_reserved(line);
    }
    told.push_reserved(Line::Refused(fault));
    Items::from_vec(told)
}
