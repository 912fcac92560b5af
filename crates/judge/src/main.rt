// Runs cases from standard input until its end and prints what the library did. A number is four bytes, high first. A case is a
// letter and its fields:
// T: the table's length and bytes. It prints the answer on one line: 0 for yes, or the refusal's number.
// C: the same, and refusal 4 is followed by the broken condition and the state where it is broken, each on its line.
// R: a table as above; the count of codes and the codes; the first number; the words of tree lent; the words of room lent. It prints the
//    three lines of told.rt.
// U: a table; the old row's count of words and its words; the same of the edits and of the inserted codes; the words of tree and of room
//    lent. It prints the three lines.
// N, V: a number of times, then as R or as U. The call is made so many times over the same rows, which serves to time it.
// L: as U without the words lent. It prints the reading list that the library makes of the update, on the line of listed.rt.
// Malformed input prints `input` and stops.
#![tactic(auto)]

mod input;
mod listed;
mod told;

use answers::{Answer, Refusal};
use input::{Kind, Malformed};
use table::Broken;
use told::Unwritten;

// Why a run stops before the input's end.
#[derive(Drop)]
enum Stop {
    Malformed,
    Unwritten,
}

impl From<Malformed> for Stop {
    fn from(_: Malformed) -> Stop {
        Stop::Malformed
    }
}

impl From<Unwritten> for Stop {
    fn from(_: Unwritten) -> Stop {
        Stop::Unwritten
    }
}

// The answer's number on a line. Behind refusal 4, if they are asked for, the condition and the state, each on its line.
fn tell_check(named: bool, found: Result<(), Broken>) -> Result<(), Unwritten> {
    match found {
        Ok(()) => told::say_line(0),
        Err(Broken::States(condition, state)) if named => {
            let _ = told::say_line(4);
            let _ = told::say_line(u64::from(condition.number()));
            told::say_line(state as u64)
        }
        Err(broken) => told::say_line(u64::from(Refusal::from(broken).number())),
    }
}

// The words lent of the tree and of the room, the call over them, made so many times and at least once, and what it did.
fn call_and_tell<F: FnMut(&mut [u32], &mut [u32]) -> Answer>(
    times: u32,
    tree: &mut [u32],
    room: &mut [u32],
    mut call: F,
) -> Result<(), Stop>
    requires { F.IsAlwaysCallable call }
{
    tree.fill(told::TREE);
    room.fill(told::ROOM);
    let words = input::read_count(tree.len())?;
    let more = input::read_count(room.len())?;
    let tree = &mut tree[..words];
    let room = &mut room[..more];
    for _ in 1..times {
        let _ = call(tree, room);
    }
    let answer = call(tree, room);
    told::tell(answer, tree, room)?;
    Ok(())
}

// The rows that the cases are read into and run over. They are as long as their fields may be; all that is lent is a part of them.
#[derive(Drop)]
struct Rows {
    table: [u8; 66000],
    old: [u32; 8200],
    edits: [u32; 12300],
    codes: [u32; 2200],
    tree: [u32; 6400],
    room: [u32; 16640],
}

impl Rows {
    // A case of kind T or C.
    fn check(&mut self, named: bool) -> Result<(), Stop> {
        let table = input::read_bytes(&mut self.table)?;
        tell_check(named, blenkysnow::check_table(table))?;
        Ok(())
    }

    // A case of kind R, or behind the number of times the rest of one of kind N.
    fn read(&mut self, times: u32) -> Result<(), Stop> {
        let table = input::read_bytes(&mut self.table)?;
        let codes = input::read_words(&mut self.codes)?;
        let first = input::read_number()?;
        call_and_tell(
            times,
            &mut self.tree,
            &mut self.room,
            |tree, room| blenkysnow::read_afresh(table, codes, first, tree, room),
        )
    }

    // A case of kind U, or behind the number of times the rest of one of kind V.
    fn update(&mut self, times: u32) -> Result<(), Stop> {
        let given = input::read_edited(
            &mut self.table,
            &mut self.old,
            &mut self.edits,
            &mut self.codes,
        )?;
        call_and_tell(times, &mut self.tree, &mut self.room, |tree, room| {
            blenkysnow::update(given.table, given.old, given.edits, given.codes, tree, room)
        })
    }

    // A case of kind L. The list is made in the room.
    fn list(&mut self) -> Result<(), Stop> {
        let given = input::read_edited(
            &mut self.table,
            &mut self.old,
            &mut self.edits,
            &mut self.codes,
        )?;
        listed::tell(given, &mut self.room)?;
        Ok(())
    }

    // One case; false at the input's end.
    fn one(&mut self) -> Result<bool, Stop> {
        let Some(kind) = input::read_kind()? else {
            return Ok(false);
        };
        match kind {
            Kind::Table { named } => self.check(named)?,
            Kind::Read { times } => self.read(times)?,
            Kind::Update { times } => self.update(times)?,
            Kind::List => self.list()?,
        }
        Ok(true)
    }

    // A proved loop has to end, and nothing says that the input does: it makes more turns than any run has cases.
    fn run(&mut self) -> Result<(), Stop> {
        for _ in 0..u64::MAX {
            if !self.one()? {
                break;
            }
        }
        Ok(())
    }
}

fn main() {
    let mut rows = Rows {
        table: [0; 66000],
        old: [0; 8200],
        edits: [0; 12300],
        codes: [0; 2200],
        tree: [0; 6400],
        room: [0; 16640],
    };
    if let Err(Stop::Malformed) = rows.run() {
        io::write_all(1, b"input\n");
    }
}
