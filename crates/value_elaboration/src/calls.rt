// Calls, STARTs and messages (Z.200, chapters on values and on concurrent execution).
use crate::elaborated::{Elaborated, boxed};
use crate::locations::Target;
use crate::operators::routine_on;
use crate::values::{Values, fitting};
use checked_program::{Argument, Call, Expr, Operation, Received, Routine, Start};
use chill_base::List;
use chill_tree::tree::{Expr as Tree, Name, Passing};
use class_operators::{gives_no_value, is_measuring};
use expr_rules::{Callee, Formal, Receiver};
use modes::{Class, bounds};
use program_numbers::{ElaborationRefusal, Predefined, Thing};

/// A routine of one value, with its argument.
#[derive(Drop)]
pub struct Applied {
    pub routine: Routine,
    pub argument: Box<Expr>,
}

impl<'a, 'b, 'c> Values<'a, 'b, 'c> {
    /// The call of the procedure of a name.
    pub fn call(&self, of: &Name, args: &[Tree]) -> Result<Call, ElaborationRefusal> {
        match self.walk.callee_named(of) {
            Callee::Procedure(name) => self.call_of(name, args),
            Callee::Routine(_) | Callee::Nothing => Err(ElaborationRefusal::Unsound),
        }
    }

    // The call of the procedure of that name.
    #[cycle(value)]
    fn call_of(&self, name: &Name, args: &[Tree]) -> Result<Call, ElaborationRefusal> {
        let Thing::Body(body) = self.numbering.thing_used(self.walk, name.at) else {
            return Err(ElaborationRefusal::Unsound);
        };
        let formals = self.walk.formals_of(name)?;
        let arguments = self.arguments(args, formals.as_slice())?;
        Ok(Call { body, arguments })
    }

    // A call of a procedure that stands as a value.
    #[cycle(value)]
    pub(crate) fn called(
        &self,
        name: &Name,
        args: &[Tree],
    ) -> Result<Elaborated, ElaborationRefusal> {
        let call = self.call_of(name, args)?;
        let known = self.known_result(name)?;
        let call = boxed(self.alloc(), call)?;
        self.found(known, Operation::Call(call))
    }

    // The arguments of a call.
    #[cycle(value)]
    fn arguments(
        &self,
        args: &[Tree],
        formals: &[Formal<'_>],
    ) -> Result<List<Argument>, ElaborationRefusal> {
        let mut all = List::new(self.alloc());
        for (place, arg) in args.iter().enumerate() {
            let Some(formal) = formals.get(place) else {
                return Err(ElaborationRefusal::Unsound);
            };
            all.push(self.argument(arg, formal)?)?;
        }
        whole_list(all, formals.len())
    }

    // The argument for a parameter.
    #[cycle(value)]
    fn argument(&self, arg: &Tree, formal: &Formal<'_>) -> Result<Argument, ElaborationRefusal> {
        let Some(mode) = formal.mode else {
            return Err(ElaborationRefusal::Unsound);
        };
        if formal.passing == Passing::In {
            return Ok(Argument::In(self.received(arg, mode)?));
        }
        let Target {
            location: target,
            mode: own,
        } = self.target(arg)?;
        let bounds_of_target = bounds(&own);
        Ok(match formal.passing {
            Passing::InOut => Argument::InOut {
                target,
                taken: bounds(mode),
                bounds: bounds_of_target,
            },
            Passing::In | Passing::Out => Argument::Out {
                target,
                bounds: bounds_of_target,
            },
        })
    }

    /// The START of the process of a name.
    #[cycle(value)]
    pub fn start(&self, process: &Name, args: &[Tree]) -> Result<Start, ElaborationRefusal> {
        let Thing::Body(number) = self.numbering.thing_used(self.walk, process.at) else {
            return Err(ElaborationRefusal::Unsound);
        };
        let formals = self.walk.formals_of(process)?;
        let arguments = self.all_received(args, formals.as_slice())?;
        Ok(Start {
            process: number,
            arguments,
        })
    }

    // A START that stands as a value.
    #[cycle(value)]
    pub(crate) fn started(
        &self,
        process: &Name,
        args: &[Tree],
    ) -> Result<Elaborated, ElaborationRefusal> {
        let start = self.start(process, args)?;
        let known = self.known_instance()?;
        let start = boxed(self.alloc(), start)?;
        self.found(known, Operation::Start(start))
    }

    /// The parts of what is sent to a buffer or by a signal.
    pub fn message(
        &self,
        target: &Name,
        args: &[Tree],
    ) -> Result<List<Received>, ElaborationRefusal> {
        match self.walk.formals_of_message(target)? {
            None => Err(ElaborationRefusal::Unsound),
            Some(formals) => self.all_received(args, formals.as_slice()),
        }
    }

    // Values that go to formals.
    #[cycle(value)]
    fn all_received(
        &self,
        args: &[Tree],
        formals: &[Formal<'_>],
    ) -> Result<List<Received>, ElaborationRefusal> {
        let mut all = List::new(self.alloc());
        for (place, arg) in args.iter().enumerate() {
            let Some(mode) = formals.get(place).and_then(|formal| formal.mode) else {
                return Err(ElaborationRefusal::Unsound);
            };
            all.push(self.received(arg, mode)?)?;
        }
        whole_list(all, formals.len())
    }

    // A call of a routine that stands as a value.
    #[cycle(value)]
    pub(crate) fn routine_value(
        &self,
        own: Predefined,
        args: &[Tree],
    ) -> Result<Elaborated, ElaborationRefusal> {
        match args {
            [] if own == Predefined::GetInt => {
                self.found(self.known_input()?, Operation::GetInt)
            }
            [arg] if is_measuring(own) => self.measured(own, arg),
            [arg] if !gives_no_value(own) => self.routine_of(own, arg),
            _ => Err(ElaborationRefusal::Unsound),
        }
    }

    // UPPER, LOWER or SIZE, whose argument isn't evaluated.
    fn measured(&self, own: Predefined, arg: &Tree) -> Result<Elaborated, ElaborationRefusal> {
        let known = fitting(self.known_measure(own, arg)?)?;
        Ok(Elaborated::constant(known))
    }

    // A routine of one value.
    #[cycle(value)]
    fn routine_of(&self, own: Predefined, arg: &Tree) -> Result<Elaborated, ElaborationRefusal> {
        let argument = self.node(arg, Receiver::Nothing)?;
        let known = fitting(self.known_routine(own, &argument.known)?)?;
        if known.is_constant {
            return Ok(Elaborated::constant(known));
        }
        let argument = argument.into_expr(self.alloc())?;
        let routine = routine_for(own, &argument.class)?;
        self.found(known, Operation::Routine { routine, argument })
    }

    /// The call of a routine that gives a value.
    pub fn routine(&self, own: Predefined, args: &[Tree]) -> Result<Box<Expr>, ElaborationRefusal> {
        self.routine_value(own, args)?.into_expr(self.alloc())
    }

    /// A routine of one value that stands as an action.
    pub fn applied(&self, own: Predefined, arg: &Tree) -> Result<Applied, ElaborationRefusal> {
        let argument = self.value(arg, Receiver::Nothing)?;
        let routine = routine_for(own, &argument.class)?;
        Ok(Applied { routine, argument })
    }
}

// The routine of an argument that it takes.
fn routine_for(own: Predefined, argument: &Class) -> Result<Routine, ElaborationRefusal> {
    match routine_on(own, argument) {
        Some(routine) => Ok(routine),
        None => Err(ElaborationRefusal::Unsound),
    }
}

// The list, which has to have so many items.
fn whole_list<T: Drop>(all: List<T>, needed: usize) -> Result<List<T>, ElaborationRefusal> {
    if all.len() != needed {
        return Err(ElaborationRefusal::Unsound);
    }
    Ok(all)
}
