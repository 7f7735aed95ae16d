// The images of the tasks' files.
ghost use Rattle.std.specs.Prelude.{◌≡◌, ◌<◌, length, position, All, IfOk, IfSome};
ghost use Rattle.std.specs.Prelude.{Ok, [], ◌∷◌};
ghost use Rattle.std.specs.Str.{bytes_eq};
ghost use Rattle.crpd_base.specs.Images.{IsImage};
ghost use Rattle.crpd_input.specs.Steps.{HoldsFor, IsRefusal, LeavesFiles, Means};
ghost use Rattle.crpd_io.specs.Asked.{Asked};
ghost use Rattle.crpd_input.specs.Asking.{AsksFor, new_files, unless_named};
ghost use Rattle.crpd_input.specs.Reading as spec;
ghost use Rattle.crpd_input.specs.Reading.{image_in, images_in};

use crate::cause::Cause;
use crate::copies::copy_image;
use crate::halt::Halt;
use crate::load::load;
use crate::refuse::{refuse_count, refuse_plainly};
use crpd_base::{FILE_BYTES, Image, Items, TaskSpec};
use crpd_io::Files;
use elf_reader::{ElfError, read_elf};
use std::alloc::Global;

/// The refusal of an ELF file, or out of memory.
fn elf_halt(alloc: Global, file: &str, error: ElfError) -> Halt
    ensures { IsRefusal (spec.elf_halt file.now error) result }
{
    let cause = match error {
        ElfError::Memory => return Halt::Memory,
        ElfError::Short => Cause::Short,
        ElfError::NotElf => Cause::NotElf,
        ElfError::NotElf32Little => Cause::NotElf32Little,
        ElfError::NotRiscV => Cause::NotRiscV,
        ElfError::NotExecutable => Cause::NotExecutable,
        ElfError::NotStatic(place) => return refuse_count(
            alloc,
            Cause::NotStatic,
            file,
            u64::from(place),
        ),
        ElfError::HeaderOutside => Cause::HeaderOutside,
        ElfError::SegmentOutside(place) => return refuse_count(
            alloc,
            Cause::SegmentOutside,
            file,
            u64::from(place),
        ),
        ElfError::SegmentsOverlap(place) => return refuse_count(
            alloc,
            Cause::SegmentsOverlap,
            file,
            u64::from(place),
        ),
        ElfError::NoCode => Cause::NoCode,
        ElfError::SymbolsOutside => Cause::SymbolsOutside,
    };
    refuse_plainly(alloc, cause, file)
}

/// The image of an ELF file.
fn load_image<F: Files>(alloc: Global, files: &mut F, name: &str) -> Result<Image, Halt>
    ensures exact { HoldsFor (F.log files.old) (F.log files.new)
        (λ c. Means (image_in c name.now) result) }
    ensures image { IfOk result IsImage }
    ensures files { LeavesFiles F.contents F.faults F.log files.old files.new result }
    ensures asked { Asked (F.log files.old) (F.log files.new) (name.now ∷ []) }
{
    let bytes = load(alloc, files, name, FILE_BYTES)?;
    match read_elf(alloc, bytes.as_slice()) {
        Ok(image) => Ok(image),
        Err(error) => Err(elf_halt(alloc, name, error)),
    }
}

/// The place of the first of these tasks that names a file.
fn first_of_file(tasks: &[TaskSpec], file: &str) -> Option<usize>
    ensures is { result ≡ position (λ t. bytes_eq file.now t.file) tasks.now }
    ensures within { IfSome result (λ place. place < length tasks.now) }
{
    tasks.iter().position(|task| file == task.file.as_str())
}

/// The image of a file: a copy, which shares its segments and symbols, if one of the earlier tasks,
/// whose images are given, names it too. So a file is read once.
fn image_of<F: Files>(
    alloc: Global,
    files: &mut F,
    earlier: &[TaskSpec],
    images: &[Image],
    file: &str,
) -> Result<Image, Halt>
    requires count { length images.now ≡ length earlier.now }
    requires images { All IsImage images.now }
    ensures exact { HoldsFor (F.log files.old) (F.log files.new)
        (λ c. images_in c earlier.now ≡ Ok images.now → Means (image_in c file.now) result) }
    ensures image { IfOk result IsImage }
    ensures files { LeavesFiles F.contents F.faults F.log files.old files.new result }
    ensures asked { Asked (F.log files.old) (F.log files.new)
        (unless_named earlier.now file.now) }
{
    match first_of_file(earlier, file) {
        Some(place) => Ok(copy_image(&images[place])?),
        None => load_image(alloc, files, file),
    }
}

/// The images of the tasks' files, in the order of the tasks. A file that several tasks name is
/// read and parsed once. Refused with 80, 81 and 1 to 11 for the first file that is; the subject is
/// the file. `Fault` is possible only if the files counted one. Cost: linear in the files and in
/// their images.
pub fn load_images<F: Files>(
    alloc: Global,
    files: &mut F,
    tasks: &[TaskSpec],
) -> Result<Items<Image>, Halt>
    ensures exact { HoldsFor (F.log files.old) (F.log files.new)
        (λ c. Means (images_in c tasks.now) result) }
    ensures count { IfOk result (λ images. length images ≡ length tasks.now) }
    ensures images { IfOk result (λ images. All IsImage images) }
    ensures files { LeavesFiles F.contents F.faults F.log files.old files.new result }
    ensures asks { AsksFor (F.log files.old) (F.log files.new) (λ c. new_files [] tasks.now) result }
{
    let mut images = Vec::new(alloc);
    for (i, task) in tasks.iter().enumerate() {
        let image = match image_of(alloc, files, &tasks[..i], &images, task.file.as_str()) {
            Ok(image) => image,
            Err(halt) => return Err(halt),
        };
        images.push(image)?;
    }
    Ok(Items::new(images))
}
