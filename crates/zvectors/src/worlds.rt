// What the questions and the moves of a world file are.
use crate::arranged::spells;
use std::alloc::Global;
use std::process::Abort;
use zapdu_rows::boxes::box_value;
use zber_rows::unread::{Unread, read};
use zmeta_world::world::{AskedQuestion, End, World, read_world};
use zoom_questions::Move;

const SMALL: &[u8] = b"step 3
window 7
window 4
target a 48 cn
db d
rec 1.2.840.10003.5.10 a1
field 4 emma
rec 1.2.840.10003.5.10 a2
db e
host b h:210
target c 4096 r
ask c d - 10 \"@attr 1=4 dune\"
ask b d 1.2.840.10003.5.10 0 dune
ask a e - 1-2,5-7 emma
to a 100
rel c 2
from a 1";

// What a file of at most 1,000,000 octets says.
fn world(alloc: Global, file: &[u8]) -> Result<Box<World>, Unread> {
    if file.len() > 1_000_000 {
        return Err(Unread);
    }
    let Ok(world) = read_world(alloc, file) else {
        return Err(Unread);
    };
    read(box_value(alloc, world))
}

fn has_host(world: &World) -> bool {
    let [host] = world.hosts.as_slice() else {
        return false;
    };
    spells(&host.address, "h:210")
}

// Whether it stands there, is put to this end, wants so many ranges, and, where it wants none, asks for a syntax.
fn is_asked(asked: &AskedQuestion, line: u64, end: End, wanted: usize) -> bool {
    let question = &asked.question;
    asked.line == line
        && asked.end == end
        && question.wanted.len() == wanted
        && question.syntax.is_some() == (wanted == 0)
}

fn has_ranges(asked: &AskedQuestion) -> bool {
    let [_, last] = asked.question.wanted.as_slice() else {
        return false;
    };
    spells(&asked.name, "a") && last.start == 5 && last.n == 3
}

fn has_questions(world: &World) -> bool {
    let [one, two, three] = world.questions.as_slice() else {
        return false;
    };
    is_asked(one, 12, End::Target(1), 1)
        && is_asked(two, 13, End::Host(0), 0)
        && is_asked(three, 14, End::Target(0), 2)
        && has_ranges(three)
}

fn has_moves(world: &World) -> bool {
    let due = [
        Move::To { c: 2, k: 100 },
        Move::Release { c: 0, k: 2 },
        Move::From { c: 2, k: 1 },
    ];
    world.moves.as_slice() == due.as_slice()
}

fn gives_questions(alloc: Global) -> Result<bool, Unread> {
    let Ok(world) = world(alloc, SMALL) else {
        return Err(Unread);
    };
    Ok(has_host(&world) && has_questions(&world) && has_moves(&world))
}

#[test]
fn a_file_gives_questions_and_moves(rt: HostRuntime) {
    assert!(rt; gives_questions(rt.alloc()).unwrap_or(false));
}
