//! What the program does, and what is done to a register's file beside it. Nothing else here names
//! files of the machine.

use disk_files::{DiskFiles, MachineNetwork};
use register_desk::Watched;
use register_program::{Absent, Files, Machine, Outputs, act_on_words};
use sqlite::{Start, Wary};
use std::alloc::Global;
use std::io::{Read, Write};
use std::test::Fail;

/// The program's own name, and these words after it.
fn words_of(alloc: Global, given: &[&str]) -> Result<Vec<String>, Fail> {
    let mut words = Vec::new(alloc);
    words.push(format!(in alloc; "keyreg")?)?;
    for word in given {
        words.push(format!(in alloc; "{word}")?)?;
    }
    Ok(words)
}

/// The exit status of the program with these words over these streams, and over files of which `S`
/// says what they hold at first: the checker finds `Files` at no type of the machine by itself.
fn act_on<S: Start, R: Read + Drop, W: Write + Drop, E: Write + Drop>(
    rt: &HostRuntime,
    start: S,
    given: &[&str],
    input: R,
    (output, faults): (W, E),
) -> Result<u8, Fail> {
    let words = words_of(rt.alloc(), given)?;
    let outputs = Outputs {
        writer: Watched::new(output),
        faults: Watched::new(faults),
    };
    let machine = Machine {
        alloc: rt.alloc(),
        files: DiskFiles::new(rt, start),
        network: MachineNetwork::new(rt),
    };
    let (status, _) = act_on_words(machine, words.as_slice(), input, outputs);
    Ok(status)
}

/// What the program did.
#[derive(Drop)]
pub struct ProcessOutput {
    pub status: u8,
    pub output: Vec<u8>,
    pub faults: Vec<u8>,
}

impl ProcessOutput {
    /// Whether it ended with this status, wrote these lines, and named this fault, if any.
    pub fn is(&self, status: u8, output: &[u8], faults: &str) -> bool {
        self.status == status
            && self.output.as_slice() == output
            && self.faults.as_slice() == faults.as_bytes()
    }
}

/// What the program does with these words over this input. A call of [`act_on`] is dear to prove, and
/// so all of them stand here.
pub fn acted(rt: &HostRuntime, given: &[&str], input: &[u8]) -> Result<ProcessOutput, Fail> {
    let mut output = Vec::new(rt.alloc());
    let mut faults = Vec::new(rt.alloc());
    let status = act_on(rt, Wary, given, input, (&mut output, &mut faults))?;
    Ok(ProcessOutput {
        status,
        output,
        faults,
    })
}

/// Whether the program ends well and writes these lines.
pub fn succeeds(
    rt: &HostRuntime,
    given: &[&str],
    input: &[u8],
    output: &[u8],
) -> Result<bool, Fail> {
    Ok(acted(rt, given, input)?.is(0, output, ""))
}

/// Whether the program ends with this status, writes nothing, and names this fault.
pub fn fails(
    rt: &HostRuntime,
    given: &[&str],
    input: &[u8],
    status: u8,
    faults: &str,
) -> Result<bool, Fail> {
    Ok(acted(rt, given, input)?.is(status, b"", faults))
}

/// Runs the statement on the register in the file, whoever opens it.
fn edit_by<F: Files>(files: F, file: &str, statement: &str) -> Result<(), Fail> {
    let Ok(mut connection) = files.connect(file, Absent::Made) else {
        return Err(Fail::from("no connection"));
    };
    connection.execute(statement, &[])?;
    let _ = F::close(connection.into_store());
    Ok(())
}

fn edit_from<S: Start>(
    rt: &HostRuntime,
    start: S,
    file: &str,
    statement: &str,
) -> Result<(), Fail> {
    edit_by(DiskFiles::new(rt, start), file, statement)
}

/// Runs the statement on the register in the file.
pub fn edit(rt: &HostRuntime, file: &str, statement: &str) -> Result<(), Fail> {
    edit_from(rt, Wary, file, statement)
}
