//! Operations as a pack does them: the lines that are emitted for one, run by the engine.

use crate::code::{Code, Rest, emit, is_of_pairs, looks_bytes_up, result_kind};
use crate::frame::{NAMESPACE, clear_trap, prepare, score, set_value, value_at};
use crate::packing::{END, FIRST, TURNS, pack_of};
use crate::reading::Operands;
use crate::standing::Standing;
use crate::stop::Stop;
use cc_line::{Block, Slots};
use mc_engine::Engine;
use mc_nbt::{Kind, Memory, Text};
use std::alloc::Global;
use std::fmt::Write;
use wm_ast::{Answer, NumOp, TrapKind};

/// The quota of a function's lines: the most that a routine may weigh.
const QUOTA: u32 = 450;

/// The most runs of a division's turns.
const MOST_TURNS: i32 = 8;

/// The places of the operands and of the result of an operation on i32: scores, elements of the list, and some on either
/// side; the result in an operand's place, and in one of its own.
const PLACES: [Slots; 7] = [
    Slots { a: 0, b: 1, r: 0 },
    Slots { a: 0, b: 1, r: 1 },
    Slots { a: 0, b: 1, r: 2 },
    Slots {
        a: 127,
        b: 128,
        r: 127,
    },
    Slots {
        a: 128,
        b: 127,
        r: 129,
    },
    Slots {
        a: 130,
        b: 127,
        r: 127,
    },
    Slots {
        a: 130,
        b: 131,
        r: 132,
    },
];

/// Where the operands of an operation with an i64 stand, two places each, and where its result comes: scores; the first
/// three, two and one of the four places a score; elements of the list.
const PAIRS: [Slots; 6] = [
    Slots { a: 0, b: 2, r: 0 },
    Slots {
        a: 125,
        b: 127,
        r: 125,
    },
    Slots {
        a: 126,
        b: 128,
        r: 126,
    },
    Slots {
        a: 127,
        b: 129,
        r: 127,
    },
    Slots {
        a: 128,
        b: 130,
        r: 128,
    },
    Slots {
        a: 130,
        b: 132,
        r: 130,
    },
];

/// A function that is run, and what its runs weighed.
#[derive(Drop)]
struct Function {
    name: &'static str,
    /// What its lines weigh at most, as the block says.
    most: u32,
    /// The most weight that was used.
    used: u32,
}

/// The functions behind the beginning of a division.
#[derive(Drop)]
struct Pieces {
    turns: Function,
    end: Function,
}

/// An operation at some places.
#[derive(Drop)]
struct Played {
    slots: Slots,
    result: Kind,
    engine: Engine,
    first: Function,
    rest: Option<Pieces>,
}

/// An operation at all the places.
#[derive(Drop)]
pub struct Routine {
    op: NumOp,
    played: Vec<Played>,
}

impl Function {
    fn new(name: &'static str, block: &Block) -> Function {
        Function {
            name,
            most: block.weight(),
            used: 0,
        }
    }

    // Runs it, and says whether it came to its end.
    fn run(&mut self, alloc: Global, engine: &mut Engine) -> Result<bool, Stop> {
        let name = self.name;
        let start = Text::from(format!(in alloc; "{NAMESPACE}:{name}")?);
        let chained = engine.chain(&start, QUOTA)?;
        self.used = self.used.max(chained.used);
        Ok(!chained.cut)
    }

    fn add_weights(&self, text: &mut String) -> Result<(), Memory> {
        let most = self.most;
        let used = self.used;
        write!(text, "{used}/{most}")?;
        Ok(())
    }
}

impl Pieces {
    fn new(rest: &Rest) -> Pieces {
        Pieces {
            turns: Function::new(TURNS, &rest.turns),
            end: Function::new(END, &rest.end),
        }
    }

    // Runs the turns until none is left, and then the end; says whether all came to their ends.
    fn run(&mut self, alloc: Global, engine: &mut Engine) -> Result<bool, Stop> {
        for _ in 0..MOST_TURNS {
            match score(alloc, engine, "#g")? {
                Some(0) => break,
                Some(left) if left > 0 => (),
                _ => return Ok(false),
            }
            if !self.turns.run(alloc, engine)? {
                return Ok(false);
            }
        }
        if score(alloc, engine, "#g")? != Some(0) {
            return Ok(false);
        }
        self.end.run(alloc, engine)
    }
}

impl Played {
    fn new(
        alloc: Global,
        op: NumOp,
        slots: Slots,
        code: &Code,
        standing: &Standing,
    ) -> Result<Played, Stop> {
        let mut engine = Engine::load(alloc, pack_of(alloc, code)?)?;
        prepare(alloc, &mut engine)?;
        standing.lay(&mut engine, looks_bytes_up(op))?;
        Ok(Played {
            slots,
            result: result_kind(op),
            engine,
            first: Function::new(FIRST, &code.first),
            rest: code.rest.as_ref().map(Pieces::new),
        })
    }

    // What the pack makes of the operands; none where that is nothing that an operation answers.
    fn answer(&mut self, alloc: Global, operands: Operands) -> Result<Option<Answer>, Stop> {
        match operands {
            Operands::One(a) => set_value(alloc, &mut self.engine, self.slots.a, a)?,
            Operands::Two(a, b) => {
                set_value(alloc, &mut self.engine, self.slots.a, a)?;
                set_value(alloc, &mut self.engine, self.slots.b, b)?;
            }
        }
        clear_trap(alloc, &mut self.engine)?;
        if !self.first.run(alloc, &mut self.engine)? {
            return Ok(None);
        }
        match score(alloc, &self.engine, "#t")? {
            Some(0) => self.value(alloc),
            Some(2) => Ok(Some(Answer::Trap(TrapKind::DivideByZero))),
            Some(3) => Ok(Some(Answer::Trap(TrapKind::Overflow))),
            _ => Ok(None),
        }
    }

    // The result, where the first function recorded no trap.
    fn value(&mut self, alloc: Global) -> Result<Option<Answer>, Stop> {
        if let Some(rest) = &mut self.rest {
            if !rest.run(alloc, &mut self.engine)? {
                return Ok(None);
            }
        }
        let value = value_at(alloc, &self.engine, self.slots.r, self.result)?;
        Ok(value.map(Answer::Value))
    }

    fn add_weights(&self, text: &mut String) -> Result<(), Memory> {
        text.push(' ')?;
        self.first.add_weights(text)?;
        if let Some(rest) = &self.rest {
            text.push(',')?;
            rest.turns.add_weights(text)?;
            text.push(',')?;
            rest.end.add_weights(text)?;
        }
        Ok(())
    }
}

fn places(alloc: Global, op: NumOp) -> Result<Vec<Slots>, Memory> {
    if is_of_pairs(op) {
        Ok(Vec::from_array(alloc, PAIRS)?)
    } else {
        Ok(Vec::from_array(alloc, PLACES)?)
    }
}

impl Routine {
    /// What is emitted for an operation, at each of the places, over what stands; none where nothing is.
    ///
    /// # Errors
    ///
    /// `Pack` where what is emitted is no function of a pack, and `Memory`.
    pub fn new(alloc: Global, op: NumOp, standing: &Standing) -> Result<Option<Routine>, Stop> {
        let mut played = Vec::new(alloc);
        for slots in places(alloc, op)? {
            let Some(code) = emit(alloc, op, slots)? else {
                return Ok(None);
            };
            played.push(Played::new(alloc, op, slots, &code, standing)?)?;
        }
        Ok(Some(Routine { op, played }))
    }

    /// Its operation.
    pub fn op(&self) -> NumOp {
        self.op
    }

    /// Whether packs answer this of the operands, wherever these are.
    ///
    /// # Errors
    ///
    /// `Pack` where a command of the test is none, and `Memory`.
    pub fn agrees(
        &mut self,
        alloc: Global,
        operands: Operands,
        answer: Answer,
    ) -> Result<bool, Stop> {
        for played in &mut self.played {
            if played.answer(alloc, operands)? != Some(answer) {
                return Ok(false);
            }
        }
        Ok(true)
    }

    /// What was used at most, and what its lines weigh at most, at each of the places; of a division that of its
    /// beginning, its turns and its end.
    ///
    /// # Errors
    ///
    /// `Memory` where there is no room for the text.
    pub fn weights(&self, alloc: Global) -> Result<String, Memory> {
        let mut text = String::new(alloc);
        for played in &self.played {
            played.add_weights(&mut text)?;
        }
        Ok(text)
    }
}
