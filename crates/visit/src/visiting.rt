// The visit: depth first, inputs in rising order, 0 before 1.
ghost use Rattle.std.specs.Prelude.{◌≡◌, ◌+◌, ◌<◌, ◌≤◌, ◌&&◌, false, length, nat_lt, take, None, Some, Ok, true, if◌then◌else◌};
ghost use Rattle.values.specs.Kind.{Kind};
ghost use Rattle.faults.specs.Cubes.{nothing_driven};
ghost use Rattle.simulator.specs.Simulation.{drives_beyond};
ghost use Rattle.simulator.specs.Callers.{HasRoom, RowKept, SocketEmptied};
ghost use Rattle.simulator.specs.Detection.{detected};
ghost use Rattle.simulator.specs.Resimulation.{Holds};
ghost use Rattle.visit.specs.Visiting.{drive, fewer};
ghost use Rattle.visit.specs.Traces.{WhereTraced};
ghost use Rattle.visit.specs.Settings.{verdict_in, input_count, below_branch, branch_met, below_attempted, rest_below, HoldsUnder, StandsAt};
ghost use Rattle.visit.specs.Visits.{going_on, left, Visits};

use crate::answer::Answer;
use crate::branch::Branch;
use crate::progress::{BudgetSpent, Progress};
use crate::setting::Setting;
use crate::trace::Trace;
use circuit::{Circuit, MOST_LINES};
use faults::{Cube, Fault};
use refusals::FolderRefusal;
use simulator::{
    Fanout, FanoutTable, SmallFanoutTable, Socket, Verdict, allow_row, reach_end, reshows,
    resimulate, simulate,
};
use values::kind::ValueKind;

impl Branch {
    // All cubes: the one with nothing driven, and those below it.
    fn whole() -> Branch
        ensures cube { result.cube ≡ nothing_driven }
        ensures next { result.next ≡ 0 }
    {
        Branch {
            cube: Cube::nothing(),
            next: 0,
        }
    }

    // The branch with that input driven too, which is above each input that is driven already.
    fn driving(&self, input: usize, level: bool) -> Branch
        requires above { self.now.next ≤ input }
        requires room { input ≤ 63 }
        ensures cube { result.cube ≡ drive self.now.cube input (if level then 1 else 0) }
        ensures next { result.next ≡ input + 1 }
    {
        Branch {
            cube: self.cube.driving(input, level),
            next: input + 1,
        }
    }

    // The branch without the cubes that drive an input below that one.
    fn from_input(&self, input: usize) -> Branch
        requires { self.now.next ≤ input }
        ensures cube { result.cube ≡ self.now.cube }
        ensures next { result.next ≡ input }
    {
        Branch {
            cube: self.cube,
            next: input,
        }
    }
}

// Copies the values of so many lines from one row to another.
fn copy_lines<V: ValueKind>(lines: usize, from: &[V], to: &mut [V])
    requires from { lines ≤ length from.now }
    requires to { lines ≤ length to.old }
    ensures { take lines to.new ≡ take lines from.now }
{
    to[..lines].copy_from_slice(&from[..lines]);
}

// The fan-out is noted only where more tries than these are left: to note it takes as long as some tries.
const FEW_TRIES: usize = 12;

// And only where the circuit has more inputs than these: else there are few cubes.
const FEW_INPUTS: usize = 3;

// And only once more tries than these are made, since many visits end with them. Then it is noted for what is left below the cube where the
// visit stands, and once more for what is left below the cube above that one.
const FIRST_TRIES: usize = 2;

impl<'a> Setting<'a> {
    // A visit of that circuit, with that socket and budget, that has no trace yet.
    fn untraced(circuit: &'a Circuit, socket: &'a Socket, budget: usize) -> Setting<'a>
        ensures circuit { result.circuit.now ≡ circuit.now }
        ensures socket { result.socket.now ≡ socket.now }
        ensures budget { result.budget ≡ budget }
        ensures trace { result.trace ≡ None }
    {
        Setting {
            circuit,
            lines: circuit.input_count() + circuit.gates().len(),
            socket,
            budget,
            trace: None,
        }
    }
}

impl Setting<'_> {
    // The verdict on a cube of the circuit's inputs. With a trace the row holds the lines under another.
    fn verdict_on<V: ValueKind>(&self, before: Cube, cube: Cube, row: &mut [V]) -> Verdict
        requires inside { drives_beyond self.now.circuit.now cube ≡ false }
        requires room { HasRoom self.now.circuit.now row.old }
        requires held { WhereTraced self.now.trace (HoldsUnder V.ValueKind.kind V.ValueKind.meaning self.now before row.old) }
        ensures verdict { result ≡ verdict_in V.ValueKind.kind self.now cube }
        ensures held { HoldsUnder V.ValueKind.kind V.ValueKind.meaning self.now cube row.new }
    {
        match self.trace {
            Some(trace) => resimulate(trace.fanout, before, cube, self.socket, row).unwrap(),
            None => simulate(self.circuit, cube, self.socket, row).unwrap(),
        }
    }

    // Whether the kind shows a cube of the circuit's inputs. With a trace the row holds the lines under another.
    fn shows<V: ValueKind>(&self, before: Cube, cube: Cube, row: &mut [V]) -> bool
        requires inside { drives_beyond self.now.circuit.now cube ≡ false }
        requires room { HasRoom self.now.circuit.now row.old }
        requires held { WhereTraced self.now.trace (HoldsUnder V.ValueKind.kind V.ValueKind.meaning self.now before row.old) }
        ensures { result ≡ detected V.ValueKind.kind self.now.circuit.now self.now.socket.now.fault cube }
    {
        match self.trace {
            Some(trace) => {
                reshows(trace.fanout, before, cube, self.socket, trace.end, row).unwrap()
            }
            None => matches!(
                simulate(self.circuit, cube, self.socket, row),
                Ok(Verdict::Shows)
            ),
        }
    }

    // Tries a cube, unless it drives as many inputs as the best or more. Whether cubes are to be met below it: only if it is unsure, and
    // then the row holds the lines under it. With a trace the row must hold those under the cube `above`.
    fn attempt<V: ValueKind>(
        &self,
        above: Cube,
        branch: &Branch,
        progress: &mut Progress,
        row: &mut [V],
    ) -> Result<bool, BudgetSpent>
        requires room { HasRoom self.now.circuit.now row.old }
        requires inside { branch.now.next ≤ input_count self.now }
        requires held { WhereTraced self.now.trace (HoldsUnder V.ValueKind.kind V.ValueKind.meaning self.now above row.old) }
        ensures met { below_attempted V.ValueKind.kind self.now branch.now progress.new result ≡ branch_met V.ValueKind.kind self.now branch.now (going_on progress.old) }
        ensures held { result ≡ Ok true → HoldsUnder V.ValueKind.kind V.ValueKind.meaning self.now branch.now.cube row.new }
    {
        if !progress.is_beaten_by(branch.cube) {
            return Ok(false);
        }
        if progress.tries >= self.budget {
            return Err(BudgetSpent);
        }
        progress.tries += 1;
        if !self.leads_on(branch, progress) {
            // nothing below is met: whether the cube is still does not matter
            if self.shows(above, branch.cube, row) {
                progress.best = Some(branch.cube);
            }
            return Ok(false);
        }
        match self.verdict_on(above, branch.cube, row) {
            Verdict::Shows => {
                progress.best = Some(branch.cube);
                Ok(false)
            }
            Verdict::Still => Ok(false),
            Verdict::Unsure => Ok(true),
        }
    }

    // Whether a cube below one would drive fewer inputs than the best: if not, nothing below it is met.
    fn leads_on(&self, branch: &Branch, progress: &Progress) -> bool
        requires inside { branch.now.next ≤ input_count self.now }
        ensures value { result ≡ (nat_lt branch.now.next (input_count self.now) && fewer (drive branch.now.cube branch.now.next 0) progress.now.best) }
        ensures passed_over { (K : Kind) → result ≡ false → below_branch K self.now branch.now (going_on progress.now) ≡ going_on progress.now }
    {
        branch.next < self.circuit.input_count()
            && progress.is_beaten_by(branch.driving(branch.next, false).cube)
    }

    // Meets a cube: makes an attempt at it, and goes on below it, if need be. With a trace the row holds the lines under the cube `above`.
    #[cycle(in_row)]
    fn meet_in_row<V: ValueKind>(
        &self,
        above: Cube,
        branch: Branch,
        progress: &mut Progress,
        row: &mut [V],
    ) -> Result<(), BudgetSpent>
        requires room { HasRoom self.now.circuit.now row.old }
        requires inside { branch.next ≤ input_count self.now }
        requires held { WhereTraced self.now.trace (HoldsUnder V.ValueKind.kind V.ValueKind.meaning self.now above row.old) }
        ensures { left progress.new result ≡ branch_met V.ValueKind.kind self.now branch (going_on progress.old) }
    {
        if self.attempt(above, &branch, progress, row)? {
            return self.go_below_in_row(branch, progress, row);
        }
        Ok(())
    }

    // Visits all cubes below one, as long as these drive fewer inputs than the best. The row holds the lines under it, and gets their
    // values back before each of the cubes.
    #[cycle(in_row)]
    fn go_below_in_row<V: ValueKind>(
        &self,
        branch: Branch,
        progress: &mut Progress,
        row: &mut [V],
    ) -> Result<(), BudgetSpent>
        requires room { HasRoom self.now.circuit.now row.old }
        requires inside { branch.next ≤ input_count self.now }
        requires held { HoldsUnder V.ValueKind.kind V.ValueKind.meaning self.now branch.cube row.old }
        ensures { left progress.new result ≡ below_branch V.ValueKind.kind self.now branch (going_on progress.old) }
    {
        let lines = self.lines;
        // in an array, since a visit takes no memory
        let mut kept = [V::unknown(); MOST_LINES];
        copy_lines(lines, row, &mut kept);
        for input in branch.next..self.circuit.input_count() {
            let low = branch.driving(input, false);
            if !progress.is_beaten_by(low.cube) {
                return Ok(());
            }
            self.meet_in_row(branch.cube, low, progress, row)?;
            copy_lines(lines, &kept, row);
            self.meet_in_row(branch.cube, branch.driving(input, true), progress, row)?;
            copy_lines(lines, &kept, row);
        }
        Ok(())
    }

    // Visits what is left below a cube, where the cube with the next input at some level was tried: the cubes below that one, the one
    // with the input at 1, if it was not that, and those that drive inputs above. (Or all cubes below, where none was tried.) The row holds
    // the lines under the cube that was tried, or under the branch's, where none was; `kept` holds those under the branch's.
    fn go_on_in_row<V: ValueKind>(
        &self,
        branch: Branch,
        tried: Option<bool>,
        progress: &mut Progress,
        kept: &[V],
        row: &mut [V],
    ) -> Result<(), BudgetSpent>
        requires at { StandsAt V.ValueKind.kind V.ValueKind.meaning self.now branch tried kept.now row.old }
        ensures { left progress.new result ≡ rest_below V.ValueKind.kind self.now branch tried (going_on progress.old) }
    {
        let Some(level) = tried else {
            return self.go_below_in_row(branch, progress, row);
        };
        let begun = branch.driving(branch.next, level);
        self.go_below_in_row(begun, progress, row)?;
        copy_lines(self.lines, kept, row);
        if !level {
            let high = branch.driving(branch.next, true);
            self.meet_in_row(branch.cube, high, progress, row)?;
            copy_lines(self.lines, kept, row);
        }
        let further = branch.from_input(branch.next + 1);
        self.go_below_in_row(further, progress, row)
    }

    // The same, with a trace along the circuit's fan-out.
    fn go_on_along<V: ValueKind>(
        &self,
        fault: Fault,
        fanout: &Fanout<'_>,
        branch: Branch,
        tried: Option<bool>,
        progress: &mut Progress,
        kept: &[V],
        row: &mut [V],
    ) -> Result<(), BudgetSpent>
        requires fanout { fanout.now.circuit.now ≡ self.now.circuit.now }
        requires fault { self.now.socket.now.fault ≡ Some fault }
        requires at { StandsAt V.ValueKind.kind V.ValueKind.meaning self.now branch tried kept.now row.old }
        ensures { left progress.new result ≡ rest_below V.ValueKind.kind self.now branch tried (going_on progress.old) }
    {
        let setting = Setting {
            trace: Some(Trace {
                fanout,
                end: reach_end(self.circuit, fault),
            }),
            circuit: self.circuit,
            lines: self.lines,
            socket: self.socket,
            budget: self.budget,
        };
        setting.go_on_in_row(branch, tried, progress, kept, row)
    }

    // The same, with a fan-out that is noted for it, in a table for all lines that a circuit may have.
    fn go_on_in_table<V: ValueKind>(
        &self,
        fault: Fault,
        branch: Branch,
        tried: Option<bool>,
        progress: &mut Progress,
        kept: &[V],
        row: &mut [V],
    ) -> Result<(), BudgetSpent>
        requires fault { self.now.socket.now.fault ≡ Some fault }
        requires at { StandsAt V.ValueKind.kind V.ValueKind.meaning self.now branch tried kept.now row.old }
        ensures { left progress.new result ≡ rest_below V.ValueKind.kind self.now branch tried (going_on progress.old) }
    {
        let mut table = FanoutTable::new();
        let fanout = Fanout::new(self.circuit, &mut table);
        self.go_on_along(fault, &fanout, branch, tried, progress, kept, row)
    }

    // The same, with the fan-out in a table for so many lines.
    fn go_on_in_small_table<V: ValueKind, const LINES: usize>(
        &self,
        fault: Fault,
        branch: Branch,
        tried: Option<bool>,
        progress: &mut Progress,
        kept: &[V],
        row: &mut [V],
    ) -> Result<(), BudgetSpent>
        requires few { LINES ≤ 512 }
        requires fits { self.now.lines ≤ LINES }
        requires fault { self.now.socket.now.fault ≡ Some fault }
        requires at { StandsAt V.ValueKind.kind V.ValueKind.meaning self.now branch tried kept.now row.old }
        ensures { left progress.new result ≡ rest_below V.ValueKind.kind self.now branch tried (going_on progress.old) }
    {
        let mut table = SmallFanoutTable::<LINES>::new();
        let fanout = Fanout::small(self.circuit, &mut table).unwrap();
        self.go_on_along(fault, &fanout, branch, tried, progress, kept, row)
    }

    // The same, with the fan-out in the smallest table in which the circuit has room.
    fn go_on_traced<V: ValueKind>(
        &self,
        fault: Fault,
        branch: Branch,
        tried: Option<bool>,
        progress: &mut Progress,
        kept: &[V],
        row: &mut [V],
    ) -> Result<(), BudgetSpent>
        requires fault { self.now.socket.now.fault ≡ Some fault }
        requires at { StandsAt V.ValueKind.kind V.ValueKind.meaning self.now branch tried kept.now row.old }
        ensures { left progress.new result ≡ rest_below V.ValueKind.kind self.now branch tried (going_on progress.old) }
    {
        match self.lines {
            0..=16 => {
                self.go_on_in_small_table::<V, 16>(fault, branch, tried, progress, kept, row)
            }
            17..=64 => {
                self.go_on_in_small_table::<V, 64>(fault, branch, tried, progress, kept, row)
            }
            65..=128 => {
                self.go_on_in_small_table::<V, 128>(fault, branch, tried, progress, kept, row)
            }
            129..=256 => {
                self.go_on_in_small_table::<V, 256>(fault, branch, tried, progress, kept, row)
            }
            _ => self.go_on_in_table(fault, branch, tried, progress, kept, row),
        }
    }

    // Whether many tries are left.
    fn has_many_tries(&self, progress: &Progress) -> bool {
        self.budget.saturating_sub(progress.tries) > FEW_TRIES
    }

    // Whether the fan-out is to be noted now. (It decides how tries are made, and not what they give.)
    fn is_worth_a_trace(&self, progress: &Progress) -> bool {
        progress.tries > FIRST_TRIES && self.has_many_tries(progress)
    }

    // Meets a cube without a trace, but leaves what is below it once the fan-out is to be noted. Whether something is left there; the row
    // holds the lines under the cube then.
    #[cycle(at_first)]
    fn meet_at_first<V: ValueKind>(
        &self,
        fault: Fault,
        branch: Branch,
        progress: &mut Progress,
        row: &mut [V],
    ) -> Result<bool, BudgetSpent>
        requires anew { self.now.trace ≡ None }
        requires fault { self.now.socket.now.fault ≡ Some fault }
        requires room { HasRoom self.now.circuit.now row.old }
        requires inside { branch.next ≤ input_count self.now }
        ensures met { below_attempted V.ValueKind.kind self.now branch progress.new result ≡ branch_met V.ValueKind.kind self.now branch (going_on progress.old) }
        ensures held { result ≡ Ok true → HoldsUnder V.ValueKind.kind V.ValueKind.meaning self.now branch.cube row.new }
    {
        let unsure = self.attempt(branch.cube, &branch, progress, row)?;
        if !unsure || self.is_worth_a_trace(progress) {
            return Ok(unsure);
        }
        self.go_below_at_first(fault, branch, progress, row)?;
        Ok(false)
    }

    // Visits all cubes below one, as long as these drive fewer inputs than the best: without a trace at first, and then with one for what is
    // left. The row holds the lines under the cube.
    #[cycle(at_first)]
    fn go_below_at_first<V: ValueKind>(
        &self,
        fault: Fault,
        branch: Branch,
        progress: &mut Progress,
        row: &mut [V],
    ) -> Result<(), BudgetSpent>
        requires anew { self.now.trace ≡ None }
        requires fault { self.now.socket.now.fault ≡ Some fault }
        requires room { HasRoom self.now.circuit.now row.old }
        requires inside { branch.next ≤ input_count self.now }
        requires held { HoldsUnder V.ValueKind.kind V.ValueKind.meaning self.now branch.cube row.old }
        ensures { left progress.new result ≡ below_branch V.ValueKind.kind self.now branch (going_on progress.old) }
    {
        // in an array, since a visit takes no memory
        let mut kept = [V::unknown(); MOST_LINES];
        copy_lines(self.lines, row, &mut kept);
        let count = self.circuit.input_count();
        for input in branch.next..count {
            let low = branch.driving(input, false);
            if !progress.is_beaten_by(low.cube) {
                return Ok(());
            }
            let turn = branch.from_input(input);
            if self.is_worth_a_trace(progress) {
                copy_lines(self.lines, &kept, row);
                return self.go_on_traced(fault, turn, None, progress, &kept, row);
            }
            if self.meet_at_first(fault, low, progress, row)? {
                return self.go_on_traced(fault, turn, Some(false), progress, &kept, row);
            }
            let high = branch.driving(input, true);
            if self.meet_at_first(fault, high, progress, row)? {
                return self.go_on_traced(fault, turn, Some(true), progress, &kept, row);
            }
        }
        Ok(())
    }

    // Meets a cube where there is no trace: each try works out every line, whatever the row holds.
    #[cycle(anew)]
    fn meet_anew<V: ValueKind>(
        &self,
        branch: Branch,
        progress: &mut Progress,
        row: &mut [V],
    ) -> Result<(), BudgetSpent>
        requires anew { self.now.trace ≡ None }
        requires room { HasRoom self.now.circuit.now row.old }
        requires inside { branch.next ≤ input_count self.now }
        ensures { left progress.new result ≡ branch_met V.ValueKind.kind self.now branch (going_on progress.old) }
    {
        if self.attempt(branch.cube, &branch, progress, row)? {
            return self.go_below_anew(branch, progress, row);
        }
        Ok(())
    }

    // Visits all cubes below one, as long as these drive fewer inputs than the best. There is no trace.
    #[cycle(anew)]
    fn go_below_anew<V: ValueKind>(
        &self,
        branch: Branch,
        progress: &mut Progress,
        row: &mut [V],
    ) -> Result<(), BudgetSpent>
        requires anew { self.now.trace ≡ None }
        requires room { HasRoom self.now.circuit.now row.old }
        requires inside { branch.next ≤ input_count self.now }
        ensures { left progress.new result ≡ below_branch V.ValueKind.kind self.now branch (going_on progress.old) }
    {
        let inputs = self.circuit.input_count();
        for input in branch.next..inputs {
            let low = branch.driving(input, false);
            if !progress.is_beaten_by(low.cube) {
                return Ok(());
            }
            self.meet_anew(low, progress, row)?;
            let high = branch.driving(input, true);
            self.meet_anew(high, progress, row)?;
        }
        Ok(())
    }

    // Whether many tries can be made. (It decides how they are made, and not what they give.)
    fn may_take_long(&self, progress: &Progress) -> bool {
        self.circuit.input_count() > FEW_INPUTS && self.has_many_tries(progress)
    }

    // Visits all cubes below one, as long as these drive fewer inputs than the best. There is no trace yet, and the row holds the lines
    // under the cube.
    fn go_below<V: ValueKind>(
        &self,
        branch: Branch,
        progress: &mut Progress,
        row: &mut [V],
    ) -> Result<(), BudgetSpent>
        requires anew { self.now.trace ≡ None }
        requires room { HasRoom self.now.circuit.now row.old }
        requires inside { branch.next ≤ input_count self.now }
        requires held { HoldsUnder V.ValueKind.kind V.ValueKind.meaning self.now branch.cube row.old }
        ensures { left progress.new result ≡ below_branch V.ValueKind.kind self.now branch (going_on progress.old) }
    {
        match self.socket.fault() {
            Some(fault) if self.may_take_long(progress) => {
                self.go_below_at_first(fault, branch, progress, row)
            }
            _ => self.go_below_anew(branch, progress, row),
        }
    }

    // Meets a cube where there is no trace yet.
    fn meet<V: ValueKind>(
        &self,
        branch: Branch,
        progress: &mut Progress,
        row: &mut [V],
    ) -> Result<(), BudgetSpent>
        requires anew { self.now.trace ≡ None }
        requires room { HasRoom self.now.circuit.now row.old }
        requires inside { branch.next ≤ input_count self.now }
        ensures { left progress.new result ≡ branch_met V.ValueKind.kind self.now branch (going_on progress.old) }
    {
        if self.attempt(branch.cube, &branch, progress, row)? {
            return self.go_below(branch, progress, row);
        }
        Ok(())
    }
}

// Visits the cubes of the circuit's inputs in at most so many tries, with the fault plugged, and answers with a cube that
// drives the fewest inputs of those that show, that there is none, or that the budget was used up. The row must have room
// for each line. Afterwards the socket is empty; refused, socket and row are as they were.
pub fn visit<V: ValueKind>(
    circuit: &Circuit,
    fault: Fault,
    budget: usize,
    socket: &mut Socket,
    row: &mut [V],
) -> Result<Answer, FolderRefusal>
    ensures visits { Visits V.ValueKind.kind circuit.now fault budget (length row.old) result }
    ensures socket { SocketEmptied result socket.old socket.new }
    ensures row { RowKept result row.old row.new }
{
    allow_row(circuit, row.len())?;
    let plug = socket.plug(fault);
    let setting = Setting::untraced(circuit, plug.socket(), budget);
    let whole = Branch::whole();
    let mut progress = Progress::new();
    let end = setting.meet(whole, &mut progress, row);
    plug.unplug();
    Ok(progress.answer(end))
}
