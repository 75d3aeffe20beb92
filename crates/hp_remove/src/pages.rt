//! How a page goes: its translations, and its place in the cache; and how a mapping goes.
ghost use Rattle.std.specs.Prelude.{◌≡◌, Some, None};
ghost use Rattle.hp_base.specs.Numbers.{put, put2};
ghost use Rattle.hp_base.specs.Mappings.{without, without_index};
ghost use Rattle.hp_frames.specs.declared.frame.FrameState.TheVariants.{Hand};
ghost use Rattle.hp_machine.specs.Parts.{cleared};
ghost use Rattle.hp_parts.specs.View.{view};
ghost use Rattle.hp_parts.specs.Capacity.{MemoryStays};
ghost use Rattle.hp_parts.specs.Fits.{IsTaskOf, IsFileOf, HasPage};
ghost use Rattle.hp_remove.specs.Fits.{IsCleared};

use hp_base::{File, Index, Task, Vpn};
use hp_frames::Held;
use hp_parts::Parts;

/// Clears the task's entries of an index, in each of its mappings (Linux: `hugetlb_vmdelete_list`).
#[tactic(auto, using(hp_parts::proofs::Laws::clear_laws))]
pub fn clear_index(parts: &mut Parts, task: Task, file: File, index: Index)
    requires { IsTaskOf (view parts.old) task }
    ensures after { view parts.new ≡ record (view parts.old) {
      entries = put (view parts.old).entries task
          (without_index ((view parts.old).mappings task) ((view parts.old).entries task) file index);
    } }
    ensures memory { MemoryStays parts.old parts.new }
{
    parts.spaces[task.place()].clear_index(file, index);
}

/// The page goes from the cache into the call's hand (Linux: `hugetlb_delete_from_page_cache`).
#[tactic(auto, using(hp_parts::proofs::Laws::evict_laws))]
pub fn evict_page(parts: &mut Parts, file: File, index: Index) -> Held
    requires file { IsFileOf (view parts.old) file }
    requires page { HasPage (view parts.old) file index }
    ensures page { (view parts.old).pages file index ≡ Some result }
    ensures after { view parts.new ≡ record (view parts.old) {
      pages = put2 (view parts.old).pages file index None;
      frame = put (view parts.old).frame result Hand;
    } }
    ensures memory { MemoryStays parts.old parts.new }
{
    let frame = parts.files[file.number() as usize].cache.evict(index);
    parts.bank.evict(frame)
}

/// Clears the task's entries of a mapping (Linux: `unmap_vmas`).
#[tactic(auto, using(hp_parts::proofs::Laws::clear_laws))]
pub fn clear_mapping(parts: &mut Parts, task: Task, base: Vpn)
    requires { IsTaskOf (view parts.old) task }
    ensures after { view parts.new ≡ cleared (view parts.old) task base }
    ensures memory { MemoryStays parts.old parts.new }
{
    parts.spaces[task.place()].clear_mapping(base);
}

/// The mapping goes, once no page of it is translated (Linux: `remove_vma`).
#[tactic(auto, using(hp_parts::proofs::Laws::drop_laws))]
pub fn drop_mapping(parts: &mut Parts, task: Task, base: Vpn)
    requires task { IsTaskOf (view parts.old) task }
    requires bare { IsCleared (view parts.old) task base }
    ensures after { view parts.new
        ≡ record (view parts.old) { mappings = put (view parts.old).mappings task (without ((view parts.old).mappings task) base) } }
    ensures memory { MemoryStays parts.old parts.new }
{
    parts.spaces[task.place()].drop_mapping(base);
}
