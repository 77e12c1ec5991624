// Turns.
ghost use Rattle.std.specs.Prelude.{◌≡◌, ◌+◌, ◌≤◌, ◌<◌, ◌^◌, ◌++◌, ◌∷◌, [], option_map, IfOk};
ghost use Rattle.clight_sem.specs.States.{on, before, whole, alone, On, Whole};
ghost use Rattle.clight_sem.specs.Turns.{assigned, done, chose, tested, returned, item_turn, turn};
ghost use Rattle.mean_run.specs.Lefts.{seen};
ghost use Rattle.mean_run.specs.Processes.{linked_of, world_of, TurnsTo};

use crate::calls::WRONG;
use crate::conditions::{chosen, holds_if_any};
use crate::destinations::found;
use crate::evaluation::{converted, holds, value_of};
use crate::item::Item;
use crate::process::{Pending, Process};
use crate::program::Program;
use clight_unit::{Assignment, Simple, Statement, Value as Converted};
use std::alloc::AllocError;

impl<'u> Process<'u> {
    // An assignment: the place, the value, then the store.
    fn assign(&mut self, program: &Program<'u>, assignment: &Assignment) -> Pending
        ensures turn { TurnsTo (on (assigned (linked_of program.now) (world_of self.old) assignment.now)) result (world_of self.new) }
        ensures calls { self.new.calls ≡ self.old.calls }
    {
        let scene = self.scene(program);
        let value = &assignment.value;
        let Some(destination) = found(&scene, value.conversion, &assignment.target) else {
            return WRONG;
        };
        let Some(value) = value_of(&scene, &value.expression) else {
            return WRONG;
        };
        if self.give(&destination, value) {
            Pending::Nothing
        } else {
            WRONG
        }
    }

    // An assignment or a call.
    fn simple(&mut self, program: &Program<'u>, simple: &'u Simple) -> Result<Pending, AllocError>
        requires few { self.old.calls < 2 ^ 63 }
        ensures turn { IfOk result (λ x. TurnsTo (done (linked_of program.now) (world_of self.old) simple.now) x (world_of self.new)) }
        ensures calls { self.new.calls ≤ self.old.calls + 1 }
    {
        match simple {
            Simple::Assign(assignment) => Ok(self.assign(program, assignment)),
            Simple::Call(call) => self.call(program, call),
        }
    }

    // The block that an `if` chose.
    fn choose(&mut self, body: Option<&'u [Statement]>) -> Result<Pending, AllocError>
        ensures turn { IfOk result (λ x. TurnsTo (chose (world_of self.old) (option_map (λ b. b.now) body.entry)) x (world_of self.new)) }
        ensures calls { self.new.calls ≡ self.old.calls }
    {
        let Some(body) = body else {
            return Ok(WRONG);
        };
        self.top.left.put_body(body)?;
        Ok(Pending::Nothing)
    }

    // A test: where the condition holds, the body's statements and then an item.
    fn test(
        &mut self,
        holds: Option<bool>,
        body: &'u [Statement],
        item: Item<'u>,
    ) -> Result<Pending, AllocError>
        ensures turn { IfOk result (λ x. TurnsTo (tested (world_of self.old) holds body.now (seen item.entry)) x (world_of self.new)) }
        ensures calls { self.new.calls ≡ self.old.calls }
    {
        match holds {
            None => Ok(WRONG),
            Some(false) => Ok(Pending::Nothing),
            Some(true) => self.repeat(body, item),
        }
    }

    // The body's statements and then an item.
    fn repeat(&mut self, body: &'u [Statement], item: Item<'u>) -> Result<Pending, AllocError>
        ensures turn { IfOk result (λ x. TurnsTo (On (before (whole body.now ++ seen item.entry ∷ []) (world_of self.old))) x (world_of self.new)) }
        ensures calls { self.new.calls ≡ self.old.calls }
    {
        self.top.left.put_item(item)?;
        self.top.left.put_body(body)?;
        Ok(Pending::Nothing)
    }

    // A simple statement, if there is one, and then an item.
    fn alone(&mut self, simple: &'u Option<Simple>, item: Item<'u>) -> Result<Pending, AllocError>
        ensures turn { IfOk result (λ x. TurnsTo (On (before (alone simple.now ++ seen item.entry ∷ []) (world_of self.old))) x (world_of self.new)) }
        ensures calls { self.new.calls ≡ self.old.calls }
    {
        self.top.left.put_item(item)?;
        if let Some(simple) = simple {
            self.top.left.put_item(Item::Alone(simple))?;
        }
        Ok(Pending::Nothing)
    }

    // A `return`.
    fn give_back(
        &mut self,
        program: &Program<'u>,
        value: &Option<Converted>,
    ) -> Result<Pending, AllocError>
        ensures turn { IfOk result (λ x. TurnsTo (returned (linked_of program.now) (world_of self.old) value.now) x (world_of self.new)) }
        ensures calls { self.new.calls ≡ self.old.calls }
    {
        match value {
            None => self.leave(None),
            Some(value) => match converted(&self.scene(program), value) {
                None => Ok(WRONG),
                Some(value) => self.leave(Some(value)),
            },
        }
    }

    // A statement that no turn has taken.
    fn statement(
        &mut self,
        program: &Program<'u>,
        statement: &'u Statement,
    ) -> Result<Pending, AllocError>
        requires few { self.old.calls < 2 ^ 63 }
        ensures turn { IfOk result (λ x. TurnsTo (item_turn (linked_of program.now) (world_of self.old) (Whole statement.now)) x (world_of self.new)) }
        ensures calls { self.new.calls ≤ self.old.calls + 1 }
    {
        match statement {
            Statement::Empty => Ok(Pending::Nothing),
            Statement::Block(body) => self.choose(Some(body.as_slice())),
            Statement::Initialise(assignment) => Ok(self.assign(program, assignment)),
            Statement::Simple(simple) => self.simple(program, simple),
            Statement::If(arms, last) => {
                let body = chosen(&self.scene(program), arms.as_slice(), last);
                self.choose(body)
            }
            Statement::While(test, body) => {
                let body = body.as_slice();
                let holds = holds(&self.scene(program), test);
                self.test(holds, body, Item::Again(test, body))
            }
            Statement::Do(body, test) => {
                self.repeat(body.as_slice(), Item::TestOfDo(body.as_slice(), test))
            }
            Statement::For(first, test, step, body) => {
                self.alone(first, Item::TestOfFor(test, step, body.as_slice()))
            }
            Statement::Break => {
                self.top.left.leave_loop();
                Ok(Pending::Nothing)
            }
            Statement::Continue => {
                self.top.left.go_to_loop();
                Ok(Pending::Nothing)
            }
            Statement::Return(value) => self.give_back(program, value),
        }
    }

    // An item.
    fn item(&mut self, program: &Program<'u>, item: Item<'u>) -> Result<Pending, AllocError>
        requires few { self.old.calls < 2 ^ 63 }
        ensures turn { IfOk result (λ x. TurnsTo (item_turn (linked_of program.now) (world_of self.old) (seen item.entry)) x (world_of self.new)) }
        ensures calls { self.new.calls ≤ self.old.calls + 1 }
    {
        match item {
            Item::Whole(statement) => self.statement(program, statement),
            Item::Alone(simple) => self.simple(program, simple),
            Item::Again(test, body) => {
                let holds = holds(&self.scene(program), test);
                self.test(holds, body, item)
            }
            Item::TestOfDo(body, test) => {
                let holds = holds(&self.scene(program), test);
                self.test(holds, body, item)
            }
            Item::TestOfFor(test, step, body) => {
                let holds = holds_if_any(&self.scene(program), test);
                self.test(holds, body, Item::StepOfFor(test, step, body))
            }
            Item::StepOfFor(test, step, body) => {
                self.alone(step, Item::TestOfFor(test, step, body))
            }
        }
    }

    /// One turn: takes the first item of what the newest call has still to do.
    pub fn turn(&mut self, program: &Program<'u>) -> Result<Pending, AllocError>
        requires few { self.old.calls < 2 ^ 63 }
        ensures turn { IfOk result (λ x. TurnsTo (turn (linked_of program.now) (world_of self.old)) x (world_of self.new)) }
        ensures calls { self.new.calls ≤ self.old.calls + 1 }
    {
        match self.top.left.take() {
            None => self.fall(program),
            Some(item) => self.item(program, item),
        }
    }
}
