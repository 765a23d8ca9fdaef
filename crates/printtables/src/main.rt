// Prints S's inverse and the key schedule's running rotations. Reads nothing.
#![tactic(auto)]

use printed_tables::{TABLES_TEXT, print_tables};
use programs::{answer_version, write_output};
use std::env::FillError;
use std::rt::Env;

fn main(rt: HostRuntime) {
    if answer_version(&rt, b"printtables").is_some() {
        return;
    }
    if !matches!(rt.arg(1, &mut []), Err(FillError::NotPresent)) {
        let _ = eprintln!(rt; "usage: printtables");
        return;
    }
    let mut out = [0u8; TABLES_TEXT];
    if let Ok(written) = print_tables(&mut out) {
        write_output(&rt, b"printtables", &out, written);
    }
}
