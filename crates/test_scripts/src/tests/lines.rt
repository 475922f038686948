//! Lines that are too long, and the texts of faults.
use crate::tests::fixture::{is_out, play};
use sm_script::ScriptFault;
use std::alloc::{AllocError, Global};
use std::test::Fail;
use test_streams::FailingWriter;

// A script whose second line is a remark with this many bytes behind its sign, none of them a letter.
fn remark_of(alloc: Global, count: usize) -> Result<Vec<u8>, AllocError> {
    let mut script = Vec::new(alloc);
    script.extend_from_slice(b"a join\n#")?;
    script.resize(script.len().saturating_add(count), 0xff)?;
    script.push(b'\n')?;
    Ok(script)
}

// Whether the script ends so, and the writer has the reply to its first line.
fn ends_so(alloc: Global, script: &[u8], outcome: Result<(), ScriptFault>) -> bool {
    let mut writer = FailingWriter::new(alloc);
    play(alloc, script, 64, 0, &mut writer) == outcome && is_out(&writer, "joined\n", 7)
}

#[test]
fn a_line_of_more_than_256_bytes_is_bad(rt: HostRuntime) -> Result<(), Fail> {
    let longest = remark_of(rt.alloc(), 255)?;
    assert!(rt; ends_so(rt.alloc(), longest.as_slice(), Ok(())));
    let longer = remark_of(rt.alloc(), 256)?;
    assert!(rt; ends_so(rt.alloc(), longer.as_slice(), Err(ScriptFault::BadLine(2))));
    Ok(())
}

const TEXTS: &[(ScriptFault, &str)] = &[
    (ScriptFault::ReadFault, "read fault"),
    (ScriptFault::WriteFault, "write fault"),
    (ScriptFault::BadLine(12), "bad line 12"),
    (ScriptFault::HistoryFull, "history full"),
    (ScriptFault::NoMemory, "no memory"),
];

// Whether the fault has this text.
fn has_text(alloc: Global, fault: &ScriptFault, text: &str) -> Result<bool, AllocError> {
    let told = format!(in alloc; "{fault}")?;
    Ok(told.as_str() == text)
}

fn all_have_texts(alloc: Global) -> Result<bool, AllocError> {
    for (fault, text) in TEXTS {
        if !has_text(alloc, fault, text)? {
            return Ok(false);
        }
    }
    Ok(true)
}

#[test]
fn faults_have_texts(rt: HostRuntime) -> Result<(), Fail> {
    assert!(rt; all_have_texts(rt.alloc())?);
    Ok(())
}
