// What the commands so far come to.
use crate::command::{Command, command_of};
use crate::tables::Tables;
use core_defs::Cause;
use edit_apply::{ApplyFault, apply_near, count};
use edit_defs::{Act, Counts, Edit, Item, Script};
use frac128::Memory;
use reader_defs::Stop;
use scen_defs::{Kind, Program};
use scen_nodes::derive;
use smps_words::Line;
use std::alloc::Global;

/// So many commands a list has at most.
const MOST_COMMANDS: u32 = 10_000;

/// So many places of nodes a program has at most while it is edited. Programs of files have at most 20,000 nodes, and 10,000 edits add
/// at most 16 each, so that there are never more.
const MOST_PLACES: usize = 1_000_000;

/// What the commands so far come to.
#[derive(Drop)]
pub(crate) struct Draft {
    alloc: Global,
    /// The program after their edits, and how much it has over all its nodes.
    program: Program,
    counted: Counts,
    tables: Tables,
    /// How many they are.
    commands: u32,
    items: Vec<Item>,
    /// The solves that are asked for behind the last edit or report.
    work: u64,
    /// The last one asks for a report.
    reported: bool,
}

impl Draft {
    ghost use Rattle.std.specs.Prelude.{◌≡◌, ◌<◌, ◌≤◌, Ok, IfOk, OnOk, length};
    ghost use Rattle.smps_words.specs.Seen.{seen};
    ghost use Rattle.scen_defs.specs.Program.{content};
    ghost use Rattle.edit_defs.specs.Causes.{Asks};
    ghost use Rattle.edit_script.specs.Asked.{AsksOf};
    ghost use Rattle.edit_script.specs.Commands.{HasName};
    ghost use Rattle.edit_script.specs.Script.{no_commands, changed, worked, solved, follow, step, finished};
    ghost use Rattle.edit_script.specs.Drafts.{stand, IsDraft, Leads, KeepsLeads, IsAllowedFrom, Stands};

    /// No command is read.
    pub(crate) fn start(alloc: Global, program: &Program) -> Result<Draft, Memory>
        ensures stand { IfOk result (λ draft. stand draft ≡ no_commands (content program.now)) }
        ensures good { IfOk result IsDraft }
        ensures leads { IfOk result (λ draft. Leads (content program.now) draft.items.items (content draft.program)) }
    {
        let program = derive(alloc, program, Kind::Cost)?;
        let counted = count(&program.nodes)?;
        let tables = Tables::of(alloc, &program)?;
        Ok(Draft {
            alloc,
            program,
            counted,
            tables,
            commands: 0,
            items: Vec::new(alloc),
            work: 0,
            reported: false,
        })
    }

    /// An edit, which is refused where the program has a cause. The scenario of a SET is looked for at the place first.
    fn change(&mut self, edit: Edit, place: usize) -> Result<(), Stop>
        requires good { IsDraft self.old }
        requires few { self.old.commands < 10000 }
        requires asks { Asks (content self.old.program) edit }
        ensures stands { Stands self.new result (changed (stand self.old) edit) }
        ensures good { OnOk result (IsDraft self.new) }
        ensures leads { OnOk result (KeepsLeads self.old self.new) }
    {
        if self.program.nodes.len() > MOST_PLACES {
            return Err(Stop::Memory);
        }
        match apply_near(
            self.alloc,
            &mut self.program,
            &mut self.counted,
            &edit,
            place,
        ) {
            Ok(()) => {}
            Err(ApplyFault::Refused(cause)) => return Err(Stop::Fault(cause)),
            Err(ApplyFault::Memory) => return Err(Stop::Memory),
        }
        self.tables.note(&edit, &self.program.scenarios)?;
        self.items.push(Item {
            work: self.work,
            act: Act::Change(edit),
        })?;
        self.commands += 1;
        self.work = 0;
        self.reported = false;
        Ok(())
    }

    /// So many more solves before the next edit.
    fn add_work(&mut self, solves: u64)
        requires good { IsDraft self.old }
        requires few { self.old.commands < 10000 }
        requires small { solves ≤ 1000000 }
        ensures stands { stand self.new ≡ worked (stand self.old) solves }
        ensures good { IsDraft self.new }
        ensures leads { KeepsLeads self.old self.new }
    {
        self.commands += 1;
        self.work += solves;
        self.reported = false;
    }

    /// A report.
    fn report(&mut self) -> Result<(), Stop>
        requires good { IsDraft self.old }
        requires few { self.old.commands < 10000 }
        ensures stands { Stands self.new result (Ok (solved (stand self.old))) }
        ensures good { OnOk result (IsDraft self.new) }
        ensures leads { OnOk result (KeepsLeads self.old self.new) }
    {
        self.items.push(Item {
            work: 0,
            act: Act::Solve,
        })?;
        self.commands += 1;
        self.work = 0;
        self.reported = true;
        Ok(())
    }

    /// A command behind those before it.
    fn follow(&mut self, command: Command, place: usize) -> Result<(), Stop>
        requires good { IsDraft self.old }
        requires few { self.old.commands < 10000 }
        requires asks { AsksOf (content self.old.program) command }
        ensures stands { Stands self.new result (follow (stand self.old) command) }
        ensures good { OnOk result (IsDraft self.new) }
        ensures leads { OnOk result (KeepsLeads self.old self.new) }
    {
        match command {
            Command::Change(edit) => self.change(edit, place),
            Command::Work(solves) => {
                self.add_work(solves);
                Ok(())
            }
            Command::Report => self.report(),
        }
    }

    /// A line behind those before it.
    #[tactic(auto, unfolding(crate::specs::Script::step))]
    pub(crate) fn step(&mut self, line: &Line) -> Result<(), Stop>
        requires good { IsDraft self.old }
        requires named { HasName (seen line.now).fields }
        ensures stands { Stands self.new result (step (stand self.old) (seen line.now).fields) }
        ensures good { OnOk result (IsDraft self.new) }
        ensures leads { OnOk result (KeepsLeads self.old self.new) }
    {
        if self.commands >= MOST_COMMANDS {
            return Err(Stop::Fault(Cause::ScriptLimit));
        }
        let place = self.tables.place(&self.program.scenarios, line);
        let command = command_of(self.alloc, &self.program, &self.tables, place, line)?;
        self.follow(command, place)
    }

    /// The script, with a report at its end.
    pub(crate) fn finish(self) -> Result<Script, Memory>
        requires good { IsDraft self }
        ensures script { IfOk result (λ script. script.items.items ≡ finished (stand self)) }
        ensures few { IfOk result (λ script. length script.items.items ≤ 10001) }
        ensures allowed { IfOk result (IsAllowedFrom self) }
    {
        let mut items = self.items;
        if !self.reported {
            items.push(Item {
                work: 0,
                act: Act::Solve,
            })?;
        }
        Ok(Script { items })
    }
}
