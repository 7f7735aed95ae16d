// The code of a task set.
ghost use Rattle.std.specs.Prelude.{◌≡◌, ℕ, ◌+◌, ◌^◌, ◌<◌, ◌≤◌, length, slice_get, option_map, All};
ghost use Rattle.std.specs.Prelude.{Some, IfSome};
ghost use Rattle.crpd_base.specs.Images.{IsImage};
ghost use Rattle.crpd_base.specs.declared.data.Image.{Image};
ghost use Rattle.code_map.specs.NextPassing.{IsNextOf};
ghost use Rattle.crpd_base.specs.Outcome.{Gives};
ghost use Rattle.code_map.specs.Reading.{code_of};
ghost use Rattle.code_map.specs.Words.{word_at, owns, end};

use crate::error::MapError;
use crate::files::Files;
use crate::plans::plans_of;
use crpd_base::{Image, Items, Task, TaskPlan, TaskSet};
use std::alloc::Global;
use std::marker::Model;

/// The words of the tasks' files, and the tasks' plans.
#[derive(Drop)]
pub struct CodeMap {
    files: Files,
    plans: Items<TaskPlan>,
}

impl Model for CodeMap {
    ghost use Rattle.std.specs.Prelude.{◌≡◌, length};
    ghost use Rattle.code_map.specs.Words.{Code};

    ghost Value = { Code };

    ghost view = { λ m. record { images = m.files; plans = m.plans } };

    ghost invariant = { λ m. length m.plans ≡ length m.files };
}

impl CodeMap {
    /// The code of a task set whose tasks have these images, one each, in order: its words, and
    /// each task's entry, stack, global and stated loops as byte addresses below 2^32. There are at
    /// most 256 tasks. Code bytes are the file bytes of executable segments; tasks that name the
    /// same file have equal images, which never conflict. An `Err` is the first refusal:
    /// `CodeConflict`, and then by task `UnknownSymbol` for the entry, the stack, the global, and
    /// each loop's head and ranges, and `EntryOutside`. `Memory` may replace any result. Time is
    /// linear in the bytes of code, n log n in the segments and symbols, and for each place
    /// logarithmic in its image's symbols. Memory is linear in the segments, symbols and plans; no
    /// byte is copied. Sources: ELF specification 1.2, book I (p_vaddr, p_filesz, PF_X, st_value);
    /// RISC-V unprivileged manual (instructions are little-endian words at multiples of 4).
    #[tactic(auto, unfolding(crate::specs::Reading::code_of))]
    pub fn new(alloc: Global, set: &TaskSet, images: Vec<Image>) -> Result<Self, MapError>
        requires one { length images.items ≡ length set.now.tasks }
        requires few { length set.now.tasks ≤ 256 }
        requires images { All IsImage images.items }
        ensures { Gives MapError.Memory (λ c. c) result (code_of set.now images.items) }
    {
        let files = Files::new(alloc, images)?;
        let plans = plans_of(alloc, set.tasks.as_slice(), &files)?;
        Ok(CodeMap {
            files,
            plans: Items::new(plans),
        })
    }

    /// The word at an address: a number of 32 bits whose lowest byte is at the address. None if the
    /// address is not a multiple of 4, is 0xFFFFFFFC, or one of the four bytes is not a code byte.
    /// Logarithmic in the number of segments. It takes no memory.
    pub fn word(&self, address: u32) -> Option<u32>
        ensures is { result ≡ word_at self.now.images address }
        ensures within { IfSome result (λ _. address + 4 ≤ end) }
    {
        self.files.word(address)
    }

    /// The plan of a task of the set: the addresses of its entry, stack, global and loops. In
    /// constant time.
    pub fn plan(&self, task: Task) -> &TaskPlan
        requires { task.0 < length self.now.plans }
        ensures { slice_get self.now.plans task.0 ≡ Some result.now }
    {
        let place = usize::from(task.0);
        &self.plans[place]
    }

    /// Whether the word at an address is entirely in the task's own file. Logarithmic in the number
    /// of its segments. It takes no memory.
    pub fn own(&self, task: Task, address: u32) -> bool
        requires { task.0 < length self.now.images }
        ensures { option_map (λ i. owns i address) (slice_get self.now.images task.0)
            ≡ Some result }
    {
        self.files.own(usize::from(task.0), address)
    }

    /// The lowest address from `from` on at which a word is entirely in the task's own file, None
    /// if there is none. So a caller gets the addresses of a task's own words in order. It takes a
    /// search, logarithmic in the number of the file's segments, and a few for each segment that it
    /// examines. It takes no memory.
    pub fn next_own(&self, task: Task, from: u32) -> Option<u32>
        requires { task.0 < length self.now.images }
        ensures is { (i : Image) → slice_get self.now.images task.0 ≡ Some i
            → IsNextOf (owns i) from result }
        ensures within { IfSome result (λ a. a + 4 ≤ end) }
    {
        self.files.next_own(usize::from(task.0), from)
    }

    /// The images of the tasks' files, in the order of the tasks. In constant time.
    pub fn images(&self) -> &[Image]
        ensures { result.now ≡ self.now.images }
    {
        self.files.images()
    }

    /// There is one plan for each image. In constant time.
    pub fn plans_law(&self)
        ensures { length self.now.plans ≡ length self.now.images }
    {
        let _plans = &self.plans;
    }

    /// The segments of each image are in the address space and disjoint, and none has more bytes
    /// than its size. In constant time.
    pub fn images_law(&self)
        ensures { All IsImage self.now.images }
    {
        self.files.images_law();
    }

    /// A word ends below the return address of jobs, and has 32 bits. In constant time.
    pub fn words_law(&self)
        ensures { (a w : ℕ) → word_at self.now.images a ≡ Some w → (a + 4 ≤ end) × (w < 2 ^ 32) }
    {
        self.files.words_law();
    }
}
