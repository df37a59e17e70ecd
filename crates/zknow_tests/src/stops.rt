// Catalogues that stopped in ways that no trace tells: whole views and whole texts of JSON behind a text, worked out by
// hand.
use crate::saved::{Loaded, load_octets};
use std::alloc::Global;
use std::process::Abort;
use std::test::Fail;
use zber_rows::rows::{is_true, spells};
use zber_rows::unread::Unread;
use zknow_json::print_json;
use zknow_stops::{Detail, Stop};
use zknow_titles::print_titles;

// A saved file, why connections stopped, and the view and the lines of JSON that are wanted.
type Vector = (
    &'static [u8],
    &'static [Option<Stop>],
    &'static str,
    &'static str,
);

// A catalogue of which nothing is known, and that stopped as no trace can tell.
const ALONE: Vector = (
    b"\xa4\x00",
    &[Some(Stop {
        reason: "Memory",
        detail: Detail::NoMemory,
    })],
    "#0: no memory was found for it\n",
    "{\"type\":\"stopped\",\"catalogueNumber\":0,\"reason\":\"Memory\",\"detail\":\"no memory was found for it\"}\n",
);

// Catalogues of which a count is known, and that were not reached, or stopped as no trace can tell.
const KNOWN: Vector = (
    b"\xa4\x00\xa0\x09\x80\x01\x00\x81\x01\x01\x82\x01\x00\xa0\x09\x80\x01\x01\x81\x01\x01\x82\x01\x01\xa0\
    \x09\x80\x01\x02\x81\x01\x01\x82\x01\x02\xa0\x09\x80\x01\x03\x81\x01\x01\x82\x01\x03\xa0\x09\x80\x01\
    \x04\x81\x01\x01\x82\x01\x04\xa0\x09\x80\x01\x05\x81\x01\x01\x82\x01\x05\xa0\x09\x80\x01\x06\x81\x01\
    \x01\x82\x01\x0c",
    &[
        Some(Stop {
            reason: "Connect",
            detail: Detail::NoPort,
        }),
        Some(Stop {
            reason: "Connect",
            detail: Detail::NoName,
        }),
        Some(Stop {
            reason: "Connect",
            detail: Detail::NoFamily,
        }),
        Some(Stop {
            reason: "Connect",
            detail: Detail::Refused,
        }),
        Some(Stop {
            reason: "Connect",
            detail: Detail::NoRoute,
        }),
        Some(Stop {
            reason: "Connect",
            detail: Detail::NoAnswer { seconds: 30 },
        }),
        Some(Stop {
            reason: "Memory",
            detail: Detail::NoMemory,
        }),
    ],
    "\
    #0: 0 found, 0 shown\n\
    #0: not reached (the address has no port)\n\
    #1: 1 found, 0 shown\n\
    #1: not reached (no such name)\n\
    #2: 2 found, 0 shown\n\
    #2: not reached (no address of that family)\n\
    #3: 3 found, 0 shown\n\
    #3: not reached (refused)\n\
    #4: 4 found, 0 shown\n\
    #4: not reached (no route)\n\
    #5: 5 found, 0 shown\n\
    #5: not reached (no answer in 30 s)\n\
    #6: 12 found, 0 shown; then no memory was found for it\n",
    "\
    {\"type\":\"count\",\"catalogueNumber\":0,\"set\":1,\"count\":0}\n\
    {\"type\":\"count\",\"catalogueNumber\":1,\"set\":1,\"count\":1}\n\
    {\"type\":\"count\",\"catalogueNumber\":2,\"set\":1,\"count\":2}\n\
    {\"type\":\"count\",\"catalogueNumber\":3,\"set\":1,\"count\":3}\n\
    {\"type\":\"count\",\"catalogueNumber\":4,\"set\":1,\"count\":4}\n\
    {\"type\":\"count\",\"catalogueNumber\":5,\"set\":1,\"count\":5}\n\
    {\"type\":\"count\",\"catalogueNumber\":6,\"set\":1,\"count\":12}\n\
    {\"type\":\"stopped\",\"catalogueNumber\":0,\"reason\":\"Connect\",\"detail\":\"the address has no p\
    ort\"}\n\
    {\"type\":\"stopped\",\"catalogueNumber\":1,\"reason\":\"Connect\",\"detail\":\"no such name\"}\n\
    {\"type\":\"stopped\",\"catalogueNumber\":2,\"reason\":\"Connect\",\"detail\":\"no address of that f\
    amily\"}\n\
    {\"type\":\"stopped\",\"catalogueNumber\":3,\"reason\":\"Connect\",\"detail\":\"refused\"}\n\
    {\"type\":\"stopped\",\"catalogueNumber\":4,\"reason\":\"Connect\",\"detail\":\"no route\"}\n\
    {\"type\":\"stopped\",\"catalogueNumber\":5,\"reason\":\"Connect\",\"detail\":\"no answer in 30 s\"}\
    \n\
    {\"type\":\"stopped\",\"catalogueNumber\":6,\"reason\":\"Memory\",\"detail\":\"no memory was found \
    for it\"}\n",
);

// Two sets of one that stopped, one set of one that did not, an association that failed, and no entry.
const SETS: Vector = (
    b"\xa4\x0c\x80\x01a\x80\x01b\x80\x01c\x80\x01d\xa0\x09\x80\x01\x00\x81\x01\x01\x82\x01\x0c\xa0\x09\x80\
    \x01\x00\x81\x01\x02\x82\x01\x00\xa0\x09\x80\x01\x01\x81\x01\x01\x82\x01\x03\xa0\x09\x80\x01\x03\x81\
    \x01\x01\x82\x01\x04\xa0\x09\x80\x01\x03\x81\x01\x02\x82\x01\x05\xa1\x06\x80\x01\x02\x81\x01\x00",
    &[
        Some(Stop {
            reason: "Read",
            detail: Detail::Silent { seconds: 3600 },
        }),
        None,
        Some(Stop {
            reason: "Write",
            detail: Detail::Reset,
        }),
    ],
    "\
    a: 12 found, 0 shown\n\
    a set 2: 0 found, 0 shown; then silent for 3600 s\n\
    b: 3 found, 0 shown\n\
    c: association refused; then reset\n\
    d: 4 found, 0 shown\n\
    d set 2: 5 found, 0 shown\n",
    "\
    {\"type\":\"count\",\"catalogue\":\"a\",\"set\":1,\"count\":12}\n\
    {\"type\":\"count\",\"catalogue\":\"a\",\"set\":2,\"count\":0}\n\
    {\"type\":\"count\",\"catalogue\":\"b\",\"set\":1,\"count\":3}\n\
    {\"type\":\"failure\",\"catalogue\":\"c\"}\n\
    {\"type\":\"count\",\"catalogue\":\"d\",\"set\":1,\"count\":4}\n\
    {\"type\":\"count\",\"catalogue\":\"d\",\"set\":2,\"count\":5}\n\
    {\"type\":\"stopped\",\"catalogue\":\"a\",\"reason\":\"Read\",\"detail\":\"silent for 3600 s\"}\n\
    {\"type\":\"stopped\",\"catalogue\":\"c\",\"reason\":\"Write\",\"detail\":\"reset\"}\n",
);

// A catalogue with a record and no count, one in the middle, and one behind; and one that no name is of.
const PLACES: Vector = (
    b"\xa4\x09\x80\x01a\x80\x01b\x80\x01c\xa0\x09\x80\x01\x02\x81\x01\x01\x82\x01\x01\xa2\x1e\x80\x01\x00\
    \x81\x01\x01\x82\x01\x010\x13\xa1\x11\xa1\x0f(\x0d\x06\x08*\x86H\xce\x13\x05m\n\x81\x01x",
    &[
        Some(Stop {
            reason: "Read",
            detail: Detail::Silent { seconds: 3600 },
        }),
        Some(Stop {
            reason: "Connect",
            detail: Detail::Refused,
        }),
        None,
        Some(Stop {
            reason: "Connect",
            detail: Detail::NoRoute,
        }),
    ],
    "\
    a: silent for 3600 s\n\
    b: not reached (refused)\n\
    c: 1 found, 0 shown\n\
    #3: not reached (no route)\n\
    \n\
    \x20 1  a        XML, 1 octets\n",
    "\
    {\"type\":\"count\",\"catalogue\":\"c\",\"set\":1,\"count\":1}\n\
    {\"type\":\"stopped\",\"catalogue\":\"a\",\"reason\":\"Read\",\"detail\":\"silent for 3600 s\"}\n\
    {\"type\":\"stopped\",\"catalogue\":\"b\",\"reason\":\"Connect\",\"detail\":\"refused\"}\n\
    {\"type\":\"stopped\",\"catalogueNumber\":3,\"reason\":\"Connect\",\"detail\":\"no route\"}\n\
    {\"type\":\"record\",\"catalogue\":\"a\",\"set\":1,\"position\":1,\"syntax\":\"1.2.840.10003.5.109.1\
    0\",\"octets\":\"eA==\"}\n",
);

// A head that has a stop alone, before a row.
const HEAD: Vector = (
    b"\xa4\x06\x80\x01a\x80\x01b\xa2\x1e\x80\x01\x00\x81\x01\x01\x82\x01\x010\x13\xa1\x11\xa1\x0f(\x0d\x06\
    \x08*\x86H\xce\x13\x05m\n\x81\x01x",
    &[
        None,
        Some(Stop {
            reason: "Connect",
            detail: Detail::NoFamily,
        }),
    ],
    "\
    b: not reached (no address of that family)\n\
    \n\
    \x20 1  a        XML, 1 octets\n",
    "\
    {\"type\":\"stopped\",\"catalogue\":\"b\",\"reason\":\"Connect\",\"detail\":\"no address of that fam\
    ily\"}\n\
    {\"type\":\"record\",\"catalogue\":\"a\",\"set\":1,\"position\":1,\"syntax\":\"1.2.840.10003.5.109.1\
    0\",\"octets\":\"eA==\"}\n",
);

// Names with controls, with what is not UTF-8, and with a mark that turns the direction of text.
const HOSTILE: Vector = (
    b"\xa4\x1c\x80\x0ce\x1b[31m\xff\n\xe2\x80\xaee\x80\x0ce\x1b[31m\xff\n\xe2\x80\xaee\xa0\x09\x80\x01\x01\
    \x81\x01\x01\x82\x01\x01",
    &[
        Some(Stop {
            reason: "Connect",
            detail: Detail::Refused,
        }),
        Some(Stop {
            reason: "TagMismatch",
            detail: Detail::NotZ3950,
        }),
    ],
    "\
    e\u{fffd}[31m\u{fffd} \u{fffd}e: not reached (refused)\n\
    e\u{fffd}[31m\u{fffd} \u{fffd}e: 1 found, 0 shown; then sent what is no Z39.50\n",
    "\
    {\"type\":\"count\",\"catalogue\":\"e\\u001b[31m\u{fffd}\\n\u{202e}e\",\"catalogueOctets\":\"ZRtbMzF\
    t/wrigK5l\",\"set\":1,\"count\":1}\n\
    {\"type\":\"stopped\",\"catalogue\":\"e\\u001b[31m\u{fffd}\\n\u{202e}e\",\"catalogueOctets\":\"ZRtbM\
    zFt/wrigK5l\",\"reason\":\"Connect\",\"detail\":\"refused\"}\n\
    {\"type\":\"stopped\",\"catalogue\":\"e\\u001b[31m\u{fffd}\\n\u{202e}e\",\"catalogueOctets\":\"ZRtbM\
    zFt/wrigK5l\",\"reason\":\"TagMismatch\",\"detail\":\"sent what is no Z39.50\"}\n",
);

// Entries of catalogues that did not stop.
const NONE: Vector = (
    b"\xa4\x06\x80\x01a\x80\x01b\xa0\x09\x80\x01\x00\x81\x01\x01\x82\x01\x0c\xa0\x09\x80\x01\x00\x81\x01\
    \x02\x82\x01\x00\xa0\x09\x80\x01\x01\x81\x01\x01\x82\x01\x03",
    &[None, None, None],
    "\
    a: 12 found, 0 shown\n\
    a set 2: 0 found, 0 shown\n\
    b: 3 found, 0 shown\n",
    "\
    {\"type\":\"count\",\"catalogue\":\"a\",\"set\":1,\"count\":12}\n\
    {\"type\":\"count\",\"catalogue\":\"a\",\"set\":2,\"count\":0}\n\
    {\"type\":\"count\",\"catalogue\":\"b\",\"set\":1,\"count\":3}\n",
);

// Names, and nothing that is known.
const NOTHING: Vector = (b"\xa4\x06\x80\x01a\x80\x01b", &[], "", "");

// The view, or the lines of JSON, of what a file says, behind a text.
fn behind(
    alloc: Global,
    loaded: &Loaded,
    stops: &[Option<Stop>],
    is_json: bool,
) -> Result<Vec<u8>, Unread> {
    let Ok((knowledge, names)) = loaded else {
        return Err(Unread);
    };
    let mut out = b"before".to_vec(alloc)?;
    let printed = if is_json {
        print_json(alloc, knowledge, names, &[], stops, &mut out)
    } else {
        print_titles(alloc, knowledge, names, &[], stops, &mut out)
    };
    match printed {
        Ok(()) => Ok(out),
        Err(_) => Err(Unread),
    }
}

// Whether these are appended to a text.
fn appends(
    alloc: Global,
    file: &[u8],
    stops: &[Option<Stop>],
    is_json: bool,
    due: &str,
) -> Result<bool, Unread> {
    let loaded = load_octets(alloc, file)?;
    let due = format!(in alloc; "before{due}")?;
    Ok(spells(behind(alloc, &loaded, stops, is_json), due.as_bytes()))
}

// Each file gives its view and its lines.
#[test]
fn views_and_lines_of_stops(rt: HostRuntime) -> Result<(), Fail> {
    for (file, stops, view, lines) in [ALONE, KNOWN, SETS, PLACES, HEAD, HOSTILE, NONE, NOTHING] {
        assert!(rt;
            is_true(appends(rt.alloc(), file, stops, false, view)),
            "{view}"
        );
        assert!(rt;
            is_true(appends(rt.alloc(), file, stops, true, lines)),
            "{lines}"
        );
    }
    Ok(())
}
