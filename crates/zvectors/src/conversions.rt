// World files of worlds that no file of catalogues gives, as one with a host that is not asked: no command prints them.
use std::alloc::Global;
use std::test::Fail;
use zber_rows::rows::{each_row, halves, unescape};
use zber_rows::unread::Unread;
use zmeta_conversions::world_file;
use zmeta_world::world::{World, read_world};

/// World files, and the world files of their worlds.
const WORLDS: &str = r#"# No question.
 => step 10~window 4~
# Step, window, and hosts before questions.
window 2~host a h:210~ask a d - 0 x~step 7~host b h:210 => step 7~window 2~host "a" "h:210"~host "b" "h:210"~ask "a" "d" - 0 "\"x\""~
# Octets that could be notation.
host "a \"b" "[::1]:210\\"~ask "a \"b" "d%09\\e" 1.2.840.10003.5.10 3-4,10-12 "@attr 1=4 \"x \\\" y\"" => step 10~window 4~host "a \"b" "[::1]:210\\"~ask "a \"b" "d%09\\e" 1.2.840.10003.5.10 3-4,10-12 "@attr 1=4 \"x \\\" y\""~
# No name, no address, octets that are no UTF-8.
host "" ""~ask "" "" - 5 %ff => step 10~window 4~host "" ""~ask "" "" - 1-5 "\"%ff\""~
# The attribute set.
host a h~ask a d - 1 "@attrset 1.2.840.10003.3.2 @not x @set y" => step 10~window 4~host "a" "h"~ask "a" "d" - 1-1 "@attrset 1.2.840.10003.3.2 @not \"x\" @set \"y\""~
"#;

/// The octets of a row, in which `~` stands for a line feed, and `%` and two digits for one octet.
fn octets_of(alloc: Global, row: &str) -> Result<Vec<u8>, Unread> {
    let mut octets = unescape(alloc, row)?;
    for octet in octets.iter_mut() {
        if *octet == b'~' {
            *octet = b'\n';
        }
    }
    Ok(octets)
}

/// The world file of a world.
fn said(alloc: Global, world: &World) -> Result<Vec<u8>, Unread> {
    match world_file(alloc, world) {
        Ok(text) => Ok(text),
        Err(_) => Err(Unread),
    }
}

/// The world file of the world of a file of at most 1,000,000 octets.
fn said_of(alloc: Global, octets: &[u8]) -> Result<Vec<u8>, Unread> {
    if octets.len() > 1_000_000 {
        return Err(Unread);
    }
    match read_world(alloc, octets) {
        Ok(world) => said(alloc, &world),
        Err(_) => Err(Unread),
    }
}

fn says(alloc: Global, row: &str) -> Result<bool, Unread> {
    let (file, due) = halves(row);
    let octets = octets_of(alloc, file)?;
    let due = octets_of(alloc, due)?;
    Ok(said_of(alloc, octets.as_slice())?.as_slice() == due.as_slice())
}

#[test]
fn writes_world_files(rt: HostRuntime) -> Result<(), Fail> {
    each_row(rt.alloc(), WORLDS, says)
}
