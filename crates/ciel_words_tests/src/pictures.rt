// Lines of the command as text.

use ciel_words::words::{NameKind, Words, WordsRefusal, read_words};
use sky_base::text::Txt;
use std::alloc::Global;
use std::test::Fail;

/// The words of a row: a bar stands between two words.
pub(crate) fn words_of(alloc: Global, row: &str) -> Result<Vec<Txt>, Fail> {
    let mut words = Vec::new(alloc);
    for word in row.split('|') {
        words.push(Txt::new(alloc, word)?)?;
    }
    Ok(words)
}

// Puts a space before each part but the first.
fn put_space(out: &mut String) -> Result<(), Fail> {
    if !out.as_str().is_empty() {
        out.push_str(" ")?;
    }
    Ok(())
}

fn put_number(alloc: Global, out: &mut String, number: u64) -> Result<(), Fail> {
    let digits = number.to_string(alloc)?;
    out.push_str(digits.as_str())?;
    Ok(())
}

fn put_script(out: &mut String, line: &Words) -> Result<(), Fail> {
    if let Some(script) = &line.script {
        out.push_str(script.as_str())?;
    }
    Ok(())
}

fn put_inputs(out: &mut String, line: &Words) -> Result<(), Fail> {
    for (name, path) in line.inputs.as_slice() {
        put_space(out)?;
        out.push_str(name.as_str())?;
        out.push_str("=")?;
        out.push_str(path.as_str())?;
    }
    Ok(())
}

fn put_workers(alloc: Global, out: &mut String, line: &Words) -> Result<(), Fail> {
    put_space(out)?;
    out.push_str("w")?;
    put_number(alloc, out, u64::from(line.workers))?;
    out.push_str(" s")?;
    put_number(alloc, out, line.seed)
}

fn put_losses(alloc: Global, out: &mut String, line: &Words) -> Result<(), Fail> {
    for (count, worker) in line.losses.as_slice() {
        put_space(out)?;
        put_number(alloc, out, u64::from(*count))?;
        out.push_str(":")?;
        put_number(alloc, out, u64::from(*worker))?;
    }
    Ok(())
}

fn put_flags(out: &mut String, line: &Words) -> Result<(), Fail> {
    match line.names {
        NameKind::Sha1 => out.push_str(" sha1")?,
        NameKind::Sha256 => out.push_str(" sha256")?,
    }
    if line.trace {
        out.push_str(" trace")?;
    }
    if line.plain {
        out.push_str(" plain")?;
    }
    Ok(())
}

fn put_log(out: &mut String, line: &Words) -> Result<(), Fail> {
    if let Some(path) = &line.log {
        out.push_str(" log ")?;
        out.push_str(path.as_str())?;
    }
    if let Some(path) = &line.resume {
        out.push_str(" resume ")?;
        out.push_str(path.as_str())?;
    }
    Ok(())
}

fn put_threads(alloc: Global, out: &mut String, line: &Words) -> Result<(), Fail> {
    if line.stream {
        out.push_str(" stream")?;
    }
    if let Some(threads) = line.steal {
        out.push_str(" steal ")?;
        put_number(alloc, out, u64::from(threads))?;
    }
    Ok(())
}

fn put_memo(out: &mut String, line: &Words) -> Result<(), Fail> {
    if let Some(path) = &line.memo_new {
        out.push_str(" memo-new ")?;
        out.push_str(path.as_str())?;
    }
    if let Some(path) = &line.memo {
        out.push_str(" memo ")?;
        out.push_str(path.as_str())?;
    }
    Ok(())
}

fn put_lines(alloc: Global, out: &mut String, line: &Words) -> Result<(), Fail> {
    if let Some(lines) = line.generate {
        out.push_str(" ")?;
        put_number(alloc, out, u64::from(lines))?;
        out.push_str(" lines")?;
    }
    Ok(())
}

fn put_line(alloc: Global, out: &mut String, line: &Words) -> Result<(), Fail> {
    put_script(out, line)?;
    put_inputs(out, line)?;
    put_workers(alloc, out, line)?;
    put_losses(alloc, out, line)?;
    put_flags(out, line)?;
    put_log(out, line)?;
    put_threads(alloc, out, line)?;
    put_memo(out, line)?;
    put_lines(alloc, out, line)
}

/// What the words say: the script, the inputs, the workers, the seed, the losses, the digest, the flags, the log that is written or
/// gone on from, the threads that are shared, the memo that is begun or read and the lines of a generated job, with spaces between; or `no line`.
pub(crate) fn picture_of(alloc: Global, words: &[Txt]) -> Result<String, Fail> {
    let mut out = String::new(alloc);
    match read_words(alloc, words) {
        Ok(line) => put_line(alloc, &mut out, &line)?,
        Err(WordsRefusal::Usage) => out.push_str("no line")?,
        Err(WordsRefusal::Memory) => out.push_str("no memory")?,
    }
    Ok(out)
}
