//! A history whose lines are written too.

ghost use Rattle.std.specs.Prelude.{◌≡◌, IfOk, None, OnErr, OnOk, Some, false, is_none, true};
ghost use Rattle.tw_line.specs.NearestMatch.{last_line};
ghost use Rattle.tw_history_parts.specs.HistoryFile.{cut_end, is_cut_off, lines_in, unread_lines, unread_of, AddsAll};
ghost use Rattle.tw_history_parts.specs.Written.{IsOpened, IsPut, Writes};

use crate::disk::{self, OpenFile};
use crate::file::{CUT_END, Unread, add_lines, is_cut_off, read_lines, whole_part, written_line};
use crate::recent::RecentHistory;
use std::alloc::{AllocError, Global};
use std::borrow::CowStr;
use std::fs::File;
use std::io::{ErrorKind, Write};
use tw_line::{History, HistoryIndex, LentLines, SearchDirection, SearchResult, SearchStyle};

/// Another history, whose lines are written too, each as it is added, such as to the end of a file.
///
/// If the writer refuses, no line is lost in memory: the line is added, and nothing is written any more.
#[derive(Debug, Drop)]
pub struct WrittenHistory<L, W> {
    history: L,
    /// None if lines are not written.
    writer: Option<W>,
    /// Whether lines can't be written, and the owner does not know.
    has_failed: bool,
    unread: Option<Unread>,
    alloc: Global,
}

/// A history of the newest lines that is kept in a file.
pub type FileHistory = WrittenHistory<RecentHistory, File>;

impl<L: History, W: Write + Drop> WrittenHistory<L, W> {
    /// Creates a history whose lines are not written, which is no failure. Takes no memory.
    pub fn in_memory(alloc: Global, history: L) -> Self
        ensures history { result.history ≡ history }
        ensures writer { result.writer ≡ None }
        ensures failed { result.has_failed ≡ false }
        ensures unread { result.unread ≡ None }
    {
        WrittenHistory {
            history,
            writer: None,
            has_failed: false,
            unread: None,
            alloc,
        }
    }

    /// Adds the lines that were written before to a history, the oldest first, and writes its lines after them from now
    /// on. If the last one was cut off, it is ended at once: it is no line then in later sessions either. Having no writer
    /// is a failure.
    pub fn resume(
        alloc: Global,
        history: L,
        bytes: &[u8],
        writer: Option<W>,
    ) -> Result<Self, AllocError>
    where
        L: Drop,
        ensures added { IfOk result (λ it. AddsAll L.add_gives (lines_in bytes.now)
            history it.history) }
        ensures unread { IfOk result (λ it. it.unread ≡ unread_lines bytes.now) }
        ensures failed { IfOk result (λ it. it.has_failed ≡ is_none it.writer) }
        ensures ended { is_cut_off bytes.now ≡ true → IfOk result (λ it.
            IsPut W.contents cut_end (is_none writer) writer it.has_failed it.writer) }
        ensures whole { is_cut_off bytes.now ≡ false → IfOk result (λ it.
            (it.writer ≡ writer) × (it.has_failed ≡ is_none writer)) }
    {
        let mut history = history;
        let read = read_lines(alloc, bytes)?;
        add_lines(&mut history, &read.lines)?;
        Ok(WrittenHistory::behind(alloc, history, read.lost, is_cut_off(bytes), writer))
    }

    /// Creates a history whose lines are written behind others, of which `lost` can't be read, and the last one may be
    /// cut off.
    fn behind(alloc: Global, history: L, lost: usize, is_cut_off: bool, writer: Option<W>) -> Self
        ensures history { result.history ≡ history }
        ensures unread { result.unread ≡ unread_of lost }
        ensures failed { result.has_failed ≡ is_none result.writer }
        ensures ended { is_cut_off ≡ true → IsPut W.contents cut_end (is_none writer) writer
            result.has_failed result.writer }
        ensures whole { is_cut_off ≡ false → result.writer ≡ writer }
    {
        let mut written = WrittenHistory {
            has_failed: writer.is_none(),
            writer,
            unread: (lost > 0).then_some(Unread::Lines(lost)),
            ..WrittenHistory::in_memory(alloc, history)
        };
        if is_cut_off {
            written.put(CUT_END);
        }
        written
    }

    /// Returns what of the lines that were written before could not be read. It is written there still.
    pub fn unread(&self) -> Option<Unread>
        ensures { result ≡ self.now.unread }
    {
        self.unread
    }

    /// Returns true if lines can't be written. The next call returns false.
    pub fn take_failure(&mut self) -> bool
        ensures told { result ≡ self.old.has_failed }
        ensures known { self.new.has_failed ≡ false }
        ensures history { self.new.history ≡ self.old.history }
        ensures writer { self.new.writer ≡ self.old.writer }
        ensures unread { self.new.unread ≡ self.old.unread }
    {
        std::mem::replace(&mut self.has_failed, false)
    }

    /// Writes some bytes, if lines are written. A writer that refuses is let go.
    fn put(&mut self, bytes: &[u8])
        ensures put { IsPut W.contents bytes.now self.old.has_failed self.old.writer
            self.new.has_failed self.new.writer }
        ensures history { self.new.history ≡ self.old.history }
        ensures unread { self.new.unread ≡ self.old.unread }
    {
        let Some(mut writer) = self.writer.take() else {
            return;
        };
        if writer.write_all(bytes).is_ok() && writer.flush().is_ok() {
            self.writer = Some(writer);
        } else {
            self.has_failed = true;
        }
    }
}

impl WrittenHistory<RecentHistory, File> {
    /// Opens the history in a file, whose lines are added to those in memory. The file is made if there is none, for its
    /// owner only; each line that is added is written at its end. At most 1,024 bytes for each line that `lines` keeps
    /// are read, the last ones of the file.
    ///
    /// A file that is several times as long as that, or has several times as many lines, is written anew with the lines
    /// that are kept, if `lines` is empty, and if no other session has the file open: a new file takes its place.
    ///
    /// What is no regular file, or can't be read, is not written either. `unread` returns what was not read, and
    /// `take_failure` whether lines can't be written: they are kept in memory then.
    pub fn open(rt: HostRuntime, path: &str, lines: RecentHistory) -> Result<Self, AllocError>
        ensures opened { IfOk result (IsOpened lines) }
        ensures kept { IfOk result (λ it. (it.history.limit ≡ lines.limit)
            × (it.history.is_unique ≡ lines.is_unique)) }
        ensures failed { IfOk result (λ it. it.has_failed ≡ is_none it.writer) }
    {
        let alloc = rt.alloc();
        match disk::open(rt, path, lines.limit(), lines.is_empty()) {
            Ok(opened) => WrittenHistory::take_up(rt, path, lines, opened),
            Err(fault) if fault.kind() == ErrorKind::NotFound => {
                WrittenHistory::resume(alloc, lines, b"", None)
            }
            Err(_) => Ok(WrittenHistory {
                has_failed: true,
                unread: Some(Unread::File),
                ..WrittenHistory::in_memory(alloc, lines)
            }),
        }
    }

    /// Adds the lines of a file that is open to a history, and writes it anew if it is long.
    fn take_up(
        rt: HostRuntime,
        path: &str,
        lines: RecentHistory,
        opened: OpenFile,
    ) -> Result<Self, AllocError>
        ensures opened { IfOk result (IsOpened lines) }
        ensures failed { IfOk result (λ it. it.has_failed ≡ is_none it.writer) }
    {
        let alloc = rt.alloc();
        let mut history = lines;
        let end = if opened.is_part {
            whole_part(&opened.end)
        } else {
            &opened.end
        };
        let read = read_lines(alloc, end)?;
        history.add_all(&read.lines)?;
        let mut file = opened.file;
        let mut is_cut_off = is_cut_off(end);
        if opened.is_to_shrink
            && let Some(old) = file
        {
            let (kept, is_new) = disk::write_anew(rt, path, old, opened.len, &history.written()?);
            file = kept;
            is_cut_off = is_cut_off && !is_new;
        }
        Ok(WrittenHistory::behind(alloc, history, read.lost, is_cut_off, file))
    }
}

impl<L: History + LentLines, W: Write> LentLines for WrittenHistory<L, W> {
    ghost lines = { λ h. L.LentLines.lines h.history };

    fn line_count(&self) -> usize {
        self.history.line_count()
    }

    fn line(&self, at: HistoryIndex) -> &str {
        self.history.line(at)
    }
}

impl<L: History, W: Write + Drop> History for WrittenHistory<L, W> {
    ghost lines = { λ h. L.lines h.history };

    ghost add_gives = { λ history line grown. Writes L.add_gives W.contents line history grown };

    fn get(&self, alloc: Global, idx: HistoryIndex) -> Result<Option<CowStr<'_>>, AllocError> {
        self.history.get(alloc, idx)
    }

    fn last(&self) -> Option<HistoryIndex> {
        self.history.last()
    }

    /// Adds a line to the other history, and writes it. If memory is lacking, nothing is written.
    fn add(&mut self, line: &str) -> Result<(), AllocError>
        ensures last { OnOk result (last_line (L.lines self.new.history) ≡ Some line.now) }
        ensures refused { OnErr result (L.lines self.new.history ≡ L.lines self.old.history) }
        ensures added { OnOk result (Writes L.add_gives W.contents line.now self.old self.new) }
        ensures unwritten { OnErr result (self.new.writer ≡ self.old.writer) }
        ensures failed { OnErr result (self.new.has_failed ≡ self.old.has_failed) }
        ensures unread { self.new.unread ≡ self.old.unread }
    {
        let written = written_line(self.alloc, line)?;
        self.history.add(line)?;
        self.put(&written);
        Ok(())
    }

    fn search(
        &self,
        alloc: Global,
        idx: HistoryIndex,
        style: SearchStyle,
        direction: SearchDirection,
        pattern: &str,
    ) -> Result<Option<SearchResult<'_>>, AllocError> {
        self.history.search(alloc, idx, style, direction, pattern)
    }
}
