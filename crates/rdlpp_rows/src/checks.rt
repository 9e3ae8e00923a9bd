// What is checked of each row.
use crate::asking::asks_as_wanted;
use crate::devices::{Devices, Failing, SLOW, WHOLE, with_calls};
use crate::pieces::has_its_pieces;
use crate::renewed::comes_to_the_same_renewed;
use crate::row::Row;
use crate::runs::{Ended, Job, preprocess_row, run_row};
use rdlpp::FaultKind;
use rdlpp_words::{Invocation, UsageFault, parse_words};
use std::alloc::{AllocError, Global};

// The most bytes of the texts of a row that is cut, and whose devices fail at each place.
const SHORT: usize = 400;

// The most calls of a device.
const MOST_CALLS: u64 = 100_000;

/// What isn't as it has to be with a row, alone and after the row before it; nothing where all is.
pub fn failed_check(
    alloc: Global,
    before: &Row,
    row: &Row,
) -> Result<Option<&'static str>, AllocError> {
    let (Some(earlier), Some(invocation)) = (
        invocation_of(alloc, before)?,
        invocation_of(alloc, row)?,
    ) else {
        return Ok(Some("its words"));
    };
    let earlier_files = files_of(alloc, before)?;
    let earlier_folders = folders_of(alloc, &earlier)?;
    let files = files_of(alloc, row)?;
    let folders = folders_of(alloc, &invocation)?;
    let before = Job {
        row: before,
        invocation: &earlier,
        files: earlier_files.as_slice(),
        folders: earlier_folders.as_slice(),
    };
    let job = Job {
        row,
        invocation: &invocation,
        files: files.as_slice(),
        folders: folders.as_slice(),
    };
    let failed = failed_job(alloc, &job)?;
    if failed.is_some() || row.devices.is_some() {
        return Ok(failed);
    }
    if !comes_to_the_same_renewed(alloc, &before, &job)? {
        return Ok(Some("in a renewed engine"));
    }
    Ok(None)
}

// The texts of a row by their paths.
fn files_of(alloc: Global, row: &Row) -> Result<Vec<(&str, &[u8])>, AllocError> {
    let mut files = Vec::new(alloc);
    for (path, text) in &row.files {
        files.push((path.as_str(), text.as_slice()))?;
    }
    Ok(files)
}

// The include folders that the words of a row name.
fn folders_of(alloc: Global, invocation: &Invocation) -> Result<Vec<&str>, AllocError> {
    let mut folders = Vec::new(alloc);
    for folder in &invocation.folders {
        folders.push(folder.as_str())?;
    }
    Ok(folders)
}

// What the words of a row ask for, with its first text as the main one; none where they ask for nothing.
fn invocation_of(alloc: Global, row: &Row) -> Result<Option<Invocation>, AllocError> {
    let mut words = Vec::new(alloc);
    words.push("rdlpp")?;
    for word in &row.words {
        words.push(word.as_str())?;
    }
    if let Some((path, _)) = row.files.as_slice().first() {
        words.push(path.as_str())?;
    }
    match parse_words(alloc, words.as_slice()) {
        Ok(invocation) => Ok(Some(invocation)),
        Err(UsageFault::NoMemory) => Err(AllocError),
        Err(_) => Ok(None),
    }
}

// What isn't as it has to be with a row whose words were read.
fn failed_job(alloc: Global, job: &Job<'_>) -> Result<Option<&'static str>, AllocError> {
    if !preprocess_row(alloc, job, job.row.devices.unwrap_or(WHOLE))?.is_wanted(job.row) {
        return Ok(Some("run whole"));
    }
    if job.row.devices.is_some() {
        return Ok(None);
    }
    if !preprocess_row(alloc, job, SLOW)?.is_wanted(job.row) {
        return Ok(Some("by one byte a read and one byte a write"));
    }
    if !asks_as_wanted(alloc, job)? {
        return Ok(Some("what it asks for"));
    }
    if !has_its_pieces(alloc, job)? {
        return Ok(Some("piece by piece"));
    }
    if len_of(job.files) > SHORT {
        return Ok(None);
    }
    broken_job(alloc, job)
}

// What isn't as it has to be with a row that is cut short, and whose devices fail at each place.
fn broken_job(alloc: Global, job: &Job<'_>) -> Result<Option<&'static str>, AllocError> {
    if !agrees_cut(alloc, job)? {
        return Ok(Some("cut short"));
    }
    for (failing, name) in [
        (Failing::Search, "with a search that fails"),
        (Failing::Read, "with a read that fails"),
        (Failing::Write, "with a write that fails"),
        (Failing::EmptyWrite, "with a write that takes nothing"),
        (Failing::Flush, "with a flush that fails"),
    ] {
        if !fails_as_told(alloc, job, failing, WHOLE)?
            || !fails_as_told(alloc, job, failing, SLOW)?
        {
            return Ok(Some(name));
        }
    }
    Ok(None)
}

// How many bytes texts have together.
fn len_of(files: &[(&str, &[u8])]) -> usize {
    let mut len = 0_usize;
    for (_, text) in files {
        len = len.saturating_add(text.len());
    }
    len
}

// Whether whole reads and reads of one byte come to the same with each text cut short after each of its bytes.
fn agrees_cut(alloc: Global, job: &Job<'_>) -> Result<bool, AllocError> {
    for (place, (path, text)) in job.files.iter().enumerate() {
        for len in 0..text.len() {
            let mut files = Vec::from_slice(alloc, job.files)?;
            if let Some(file) = files.as_mut_slice().get_mut(place) {
                *file = (*path, &text[..len]);
            }
            let cut = Job {
                files: files.as_slice(),
                ..*job
            };
            let (Some(whole), Some(slow)) = (
                run_row(alloc, &cut, WHOLE)?,
                run_row(alloc, &cut, SLOW)?,
            ) else {
                return Ok(true);
            };
            if !whole.is_same(&slow) {
                return Ok(false);
            }
        }
    }
    Ok(true)
}

// Whether a row whose first, second and each further call of a kind fails, until none does, writes a part of its output
// each time, never less than before, and ends in the fault of that kind; and comes to what it wants at last. Its first call fails
// where the row must make one.
fn fails_as_told(
    alloc: Global,
    job: &Job<'_>,
    failing: Failing,
    devices: Devices,
) -> Result<bool, AllocError> {
    let mut least = 0;
    for calls in 0..MOST_CALLS {
        let Some(ended) = run_row(alloc, job, with_calls(failing, devices, calls))? else {
            return Ok(true);
        };
        if ended.output.len() < least
            || !job
                .row
                .output
                .as_slice()
                .starts_with(ended.output.as_slice())
        {
            return Ok(false);
        }
        if !is_told(failing, &ended) {
            return Ok(ended.is_wanted(job.row) && (calls > 0 || !must_call(failing, job.row)));
        }
        least = least_after(failing, ended.output.len());
    }
    Ok(false)
}

// Whether a row makes a call of a kind whose failure is the fault of its run: each searches its main text; one without a fault reads
// and flushes; and one with an output writes.
fn must_call(failing: Failing, row: &Row) -> bool {
    match failing {
        Failing::Search => true,
        Failing::Read | Failing::Flush => row.fault.as_slice().is_empty(),
        Failing::Write | Failing::EmptyWrite => !row.output.as_slice().is_empty(),
    }
}

// Whether a run ended in the fault of such a failure, with its end kept.
fn is_told(failing: Failing, ended: &Ended) -> bool {
    let kind = match failing {
        Failing::Search | Failing::Read => FaultKind::ReadFailed,
        Failing::Write | Failing::EmptyWrite | Failing::Flush => FaultKind::WriteFailed,
    };
    ended.is_sound && ended.kind == Some(kind)
}

// The fewest bytes that a run writes of which one call more goes well than of one that wrote so many.
fn least_after(failing: Failing, len: usize) -> usize {
    match failing {
        Failing::Write | Failing::EmptyWrite => len.saturating_add(1),
        Failing::Search | Failing::Read | Failing::Flush => len,
    }
}
