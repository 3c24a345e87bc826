//! Files that chosen packets are saved in.
ghost use Rattle.std.specs.Prelude.{◌≡◌, ◌-◌, ◌<◌, ◌≤◌, ◌^◌, ◌||◌, None, IfErr, IfOk, IfSome, IsTrue, is_err, is_some, length, option_map};
ghost use Rattle.std.specs.Io.KnownBytes.{WriteAppends};
ghost use Rattle.std.specs.IoError.{error_kind};
ghost use Rattle.racl_options.specs.Behind.{text_behind};
ghost use Rattle.racl_system.specs.SaveFiles.{IsLeftSynced, IsSaveOf, IsSynced, IsUnwritten, has_failed, saved_in};

use crate::system_files::SystemFiles;
use racl_io::Device;
use racl_options::Saved;
use racl_report::{Saves, Unopened};
use std::io;
use std::io::{Eprint, Write};

/// A file that is created at its first write: so nothing becomes of a file before there is something to write.
#[derive(Drop)]
pub struct SaveFile<'a, S, F> {
    system: &'a S,
    name: &'a str,
    file: Option<F>,
    /// Why it couldn't be created or written, where that is so.
    reason: Option<io::Error>,
}

// The file of this name, whatever that is: `-` is a file too.
fn saved_to<'a, S: SystemFiles>(system: &'a S, name: &'a str) -> SaveFile<'a, S, S::Save>
    ensures { IsUnwritten system.entry.now name.entry.now result }
{
    SaveFile {
        system,
        name,
        file: None,
        reason: None,
    }
}

impl<S: SystemFiles> SaveFile<'_, S, S::Save> {
    fn write_some(&mut self, buf: &[u8]) -> io::Result<usize>
        ensures bound { IfOk result (λ count. count ≤ length buf.now) }
        ensures bytes { WriteAppends (saved_in S.emptied S.Save.contents self.old) (saved_in S.emptied S.Save.contents self.new) result buf.now }
    {
        match &mut self.file {
            Some(file) => file.write(buf),
            None => {
                let mut file = match self.system.created_save(self.name) {
                    Ok(file) => file,
                    Err(reason) => return Err(reason),
                };
                let written = file.write(buf);
                self.file = Some(file);
                written
            }
        }
    }

    // Writes some bytes. Where that fails the reason is kept, as a device tells no more than that it failed; a write that
    // is tried again and goes through leaves none.
    fn write_or_keep_reason(&mut self, buf: &[u8]) -> io::Result<usize>
        ensures bound { IfOk result (λ count. count ≤ length buf.now) }
        ensures bytes { WriteAppends (saved_in S.emptied S.Save.contents self.old) (saved_in S.emptied S.Save.contents self.new) result buf.now }
        ensures reason { is_some self.new.reason ≡ is_err result }
        ensures kind { IfErr result (λ error. IfSome self.new.reason (λ reason. error_kind error ≡ error_kind reason)) }
    {
        match self.write_some(buf) {
            Ok(count) => {
                self.reason = None;
                Ok(count)
            }
            Err(reason) => {
                let kind = reason.kind();
                self.reason = Some(reason);
                Err(io::Error::from(kind))
            }
        }
    }

    // Syncs what was written, where all was, so that it is the file of its name, and keeps the reason where that fails. What
    // failed before is left as it stands.
    fn settle(&mut self)
        ensures failed { IsTrue (is_some self.old.reason) → self.new ≡ self.old }
        ensures unopened { self.old.file ≡ None → self.new ≡ self.old }
        ensures bytes { saved_in S.emptied S.Save.contents self.new ≡ saved_in S.emptied S.Save.contents self.old }
        ensures synced { self.new.reason ≡ None → IsSynced S.synced S.Save.contents self.new }
    {
        if self.reason.is_some() {
            return;
        }
        let Some(file) = &mut self.file else {
            return;
        };
        if let Err(reason) = self.system.settle(file) {
            self.reason = Some(reason);
        }
    }
}

impl<S: SystemFiles> Write for SaveFile<'_, S, S::Save> {
    ghost contents = { λ s. saved_in S.emptied S.Save.contents s };

    fn write(&mut self, buf: &[u8]) -> io::Result<usize> {
        self.write_or_keep_reason(buf)
    }

    fn flush(&mut self) -> io::Result<()> {
        Ok(())
    }
}

// The file of this name, where there is one.
fn file_to<'a, S: SystemFiles>(
    system: &'a S,
    name: Option<&'a str>,
) -> Option<Device<SaveFile<'a, S, S::Save>>>
    ensures named { IsSaveOf system.entry.now (text_behind name.entry) result }
    ensures sound { IfSome result (λ file. file.failures < 2 ^ 64 - 1) }
{
    match name {
        Some(name) => Some(Device::new(saved_to(system, name))),
        None => None,
    }
}

/// The files of these names, which are created where there is something to write.
pub fn saves_to<'a, S: SystemFiles>(
    system: &'a S,
    saved: &Saved<'a>,
) -> Saves<Device<SaveFile<'a, S, S::Save>>>
    ensures drops { IsSaveOf system.entry.now (text_behind saved.now.drops) result.drops }
    ensures passes { IsSaveOf system.entry.now (text_behind saved.now.passes) result.passes }
    ensures sound { IfSome result.drops (λ file. file.failures < 2 ^ 64 - 1) × IfSome result.passes (λ file. file.failures < 2 ^ 64 - 1) }
{
    Saves {
        drops: file_to(system, saved.drops),
        passes: file_to(system, saved.passes),
    }
}

// A file of a run that saved packets, synced as far as it was written. What failed before is left as it stands.
fn settled_file<'a, S: SystemFiles>(
    file: Option<Device<SaveFile<'a, S, S::Save>>>,
) -> Option<Device<SaveFile<'a, S, S::Save>>>
    ensures failed { IsTrue (has_failed file.entry) → result ≡ file.entry }
    ensures bytes { option_map (λ d. saved_in S.emptied S.Save.contents d.inner) result ≡ option_map (λ d. saved_in S.emptied S.Save.contents d.inner) file.entry }
    ensures synced { IsLeftSynced S.synced S.Save.contents result }
{
    let Some(mut file) = file else {
        return None;
    };
    file.inner.settle();
    Some(file)
}

/// The files of a run that saved packets, synced as far as they were written: what fails then is a reason to be told. What
/// failed before is left as it stands. No clause says what the system does: `tests/run` looks at it.
pub fn settled<'a, S: SystemFiles>(
    saves: Saves<Device<SaveFile<'a, S, S::Save>>>,
) -> Saves<Device<SaveFile<'a, S, S::Save>>>
    ensures drops { IsTrue (has_failed saves.entry.drops) → result.drops ≡ saves.entry.drops }
    ensures passes { IsTrue (has_failed saves.entry.passes) → result.passes ≡ saves.entry.passes }
    ensures dropped { option_map (λ d. saved_in S.emptied S.Save.contents d.inner) result.drops ≡ option_map (λ d. saved_in S.emptied S.Save.contents d.inner) saves.entry.drops }
    ensures passed { option_map (λ d. saved_in S.emptied S.Save.contents d.inner) result.passes ≡ option_map (λ d. saved_in S.emptied S.Save.contents d.inner) saves.entry.passes }
    ensures synced { IsLeftSynced S.synced S.Save.contents result.drops × IsLeftSynced S.synced S.Save.contents result.passes }
{
    let Saves { drops, passes } = saves;
    Saves {
        drops: settled_file(drops),
        passes: settled_file(passes),
    }
}

// Says why a file couldn't be created or written. Whether that is so.
fn say_failed_save<S: Drop, F: Drop>(
    rt: &impl Eprint,
    file: Option<Device<SaveFile<'_, S, F>>>,
) -> io::Result<bool>
    ensures { IfOk result (λ failed. failed ≡ has_failed file.entry) }
{
    let Some(file) = file else {
        return Ok(false);
    };
    let SaveFile { name, reason, .. } = file.inner;
    let Some(reason) = reason else {
        return Ok(false);
    };
    rt.eprintln(&Unopened { name, reason })?;
    Ok(true)
}

/// Says why files couldn't be created or written, where that is so. Whether it is.
pub fn say_unsaved<S: Drop, F: Drop>(
    rt: &impl Eprint,
    saves: Saves<Device<SaveFile<'_, S, F>>>,
) -> io::Result<bool>
    ensures { IfOk result (λ failed. failed ≡ (has_failed saves.entry.drops || has_failed saves.entry.passes)) }
{
    let Saves { drops, passes } = saves;
    let dropped = say_failed_save(rt, drops)?;
    let passed = say_failed_save(rt, passes)?;
    Ok(dropped || passed)
}
