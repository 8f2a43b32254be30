//! In which turn a search that begins at the `prb` instructions of a unit comes to each value. What is proved of it is that it is safe and
//! returns: the turns are checked before they are trusted.
ghost use Rattle.std.specs.Prelude.{◌≡◌, ◌<◌};
ghost use Rattle.lh_unit.specs.Arena.{unit_count, inst_count};

use lh_types::memory::NoMemory;
use lh_unit::inst::{Inst, InstId, UnitId};
use lh_unit::module::Module;
use lh_verify_flow::numbers::{at, put};
use lh_verify_operands::uses::uses;
use std::alloc::Global;

/// The instructions that have a value as an operand, as a chain for each value.
#[derive(Drop)]
struct Users {
    /// By value, one more than the place of its last user; 0 where there is none.
    last: Vec<u32>,
    users: Vec<User>,
    count: u32,
}

/// An instruction that uses a value.
#[derive(Clone, Copy)]
struct User {
    inst: u32,
    /// One more than the place of the user before it of the same value; 0 where there is none.
    before: u32,
}

/// A search from value to value.
#[derive(Drop)]
struct TurnSearch {
    /// By value, its turn, from 1; 0 where the search did not come to it.
    turns: Vec<u32>,
    last: u32,
    /// The values whose users were not looked at.
    open: Vec<u32>,
}

/// By the ids of values, the turn in which the search comes to each, from 1; 0 for those to which it does not come.
pub fn turns_of(alloc: Global, m: &Module, unit: UnitId, insts: u32) -> Result<Vec<u32>, NoMemory>
    requires unit { unit.0 < unit_count m.now }
    requires insts { insts ≡ inst_count m.now unit.0 }
{
    let users = users_of(alloc, m, unit, insts)?;
    let mut search = TurnSearch {
        turns: vec![in alloc; 0u32; m.values(unit) as usize]?,
        last: 0,
        open: Vec::new(alloc),
    };
    search.begin(m, unit, insts)?;
    for _ in 0..insts {
        let Some(value) = search.open.pop() else {
            break;
        };
        search.follow(m, unit, insts, &users, value)?;
    }
    Ok(search.turns)
}

/// The users of each value of a unit.
fn users_of(alloc: Global, m: &Module, unit: UnitId, insts: u32) -> Result<Users, NoMemory>
    requires unit { unit.0 < unit_count m.now }
    requires insts { insts ≡ inst_count m.now unit.0 }
{
    let mut users = Users {
        last: vec![in alloc; 0u32; m.values(unit) as usize]?,
        users: Vec::with_capacity(alloc, insts as usize)?,
        count: 0,
    };
    for i in 0..insts {
        for operand in uses(alloc, m.inst(unit, InstId(i)))?.as_slice() {
            users.add(operand.value.0, i)?;
        }
    }
    Ok(users)
}

impl Users {
    fn add(&mut self, value: u32, inst: u32) -> Result<(), NoMemory> {
        let before = at(&self.last, value);
        self.users.push(User { inst, before })?;
        self.count = self.count.wrapping_add(1);
        put(&mut self.last, value, self.count);
        Ok(())
    }

    /// The user at the place below a number.
    fn below(&self, number: u32) -> Option<User> {
        let place = number.checked_sub(1)?;
        self.users.get(place as usize).copied()
    }
}

impl TurnSearch {
    /// Comes to the results of the `prb` instructions.
    fn begin(&mut self, m: &Module, unit: UnitId, insts: u32) -> Result<(), NoMemory>
        requires unit { unit.0 < unit_count m.now }
        requires insts { insts ≡ inst_count m.now unit.0 }
    {
        for i in 0..insts {
            if let Inst::Prb(_) = m.inst(unit, InstId(i)) {
                self.meet(m, unit, InstId(i))?;
            }
        }
        Ok(())
    }

    /// Comes to the results of the instructions that use a value.
    fn follow(
        &mut self,
        m: &Module,
        unit: UnitId,
        insts: u32,
        users: &Users,
        value: u32,
    ) -> Result<(), NoMemory>
        requires unit { unit.0 < unit_count m.now }
        requires insts { insts ≡ inst_count m.now unit.0 }
    {
        let mut next = at(&users.last, value);
        for _ in 0..users.users.len() {
            let Some(user) = users.below(next) else {
                break;
            };
            if user.inst < insts {
                self.meet(m, unit, InstId(user.inst))?;
            }
            next = user.before;
        }
        Ok(())
    }

    /// Comes to the result of an instruction, if it has one, unless it was there before.
    fn meet(&mut self, m: &Module, unit: UnitId, inst: InstId) -> Result<(), NoMemory>
        requires unit { unit.0 < unit_count m.now }
        requires inst { inst.0 < inst_count m.now unit.0 }
    {
        let Some(value) = m.result_of(unit, inst) else {
            return Ok(());
        };
        if at(&self.turns, value.0) != 0 {
            return Ok(());
        }
        self.last = self.last.wrapping_add(1);
        put(&mut self.turns, value.0, self.last);
        self.open.push(value.0)?;
        Ok(())
    }
}
