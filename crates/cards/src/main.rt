// The sibling of the program `card`: prints the card of the record in each file that an argument names, one after the other. Where one cannot
// be opened or read, or the write fails: the line on standard error that `card` has, with the file's name, and status 1.
//
// Its stored files: `empty`, no byte, which means panel G; `one_byte`, which is refused; `long`, one byte longer than the longest record, which
// it begins with; `refused`, a panel that does not carry its moment; `last_face`, a record of version 2 with its fire on the last face;
// `each_face`, the same panel with a fire on each face alone, whose lesser R comes from the one and whose lesser EI from the other; `face_3`, a
// face that there is not.
#![tactic(auto)]

use card_run::{print_card, unread};
use std::env;
use std::env::Env;
use std::fs::File;
use std::process::ExitCode;
use std::rt::Files;

fn print_cards<R: Files + Env + AllocGlobal + Print + Eprint>(rt: &R) -> Result<(), ExitCode> {
    let paths = env::args(rt).map_err(|error| unread(rt, "the list of files", error))?;
    for path in paths.skip(1) {
        let mut file = File::open(rt, &path).map_err(|error| unread(rt, &path, error))?;
        print_card(rt, &path, &mut file)?;
    }
    Ok(())
}

fn main(rt: HostRuntime) -> ExitCode {
    print_cards(&rt).err().unwrap_or(ExitCode::SUCCESS)
}
