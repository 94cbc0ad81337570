//! Laws of the folder's definition. Each is carried by a function that does nothing.

ghost use Rattle.std.specs.Prelude.{◌≡◌, ◌⊎◌, [], Option, Some, codes, false, true};
ghost use Rattle.io_dev.specs.Folder.{Folder};
ghost use Rattle.io_dev.specs.Names.{IsListing};
ghost use Rattle.mc_cmd.specs.Form.{Text};
ghost use Rattle.mc_cmd.specs.Pack.{Index};
ghost use Rattle.mc_cmd.specs.Packing.{Written, index_view, is_pack_namespace, is_written};
ghost use Rattle.std.specs.FinMap.{empty};
ghost use Rattle.pk_files.specs.Example.{worked_pack};
ghost use Rattle.pk_files.specs.Held.{Holds, IsRefused, is_told};
ghost use Rattle.pk_files.specs.Json.{index_data, index_in};
ghost use Rattle.pk_files.specs.Put.{AreWithin, IsReadBack, StopsAt, pack_files, put_all};
ghost use Rattle.pk_files.specs.Told.{Told, same, told_of};
ghost use Rattle.pk_files.specs.declared.fault.GetFault.{GetFault};
ghost use Rattle.pk_files.specs.declared.fault.GetFault.TheVariants as get;

/// Law: where the content is told, a folder holds one pack, and then none of the faults that the content tells; and of
/// these it has one.
pub fn folder_has_one_answer()
    ensures pack { (folder : Folder) (dir : Text) (p q : Told)
        → Holds (Some folder) dir p → Holds (Some folder) dir q → p ≡ q }
    ensures held { (folder : Folder) (dir : Text) (p : Told) (fault : GetFault)
        → Holds (Some folder) dir p → IsRefused (Some folder) dir fault → is_told fault ≡ false }
    ensures fault { (folder : Folder) (dir : Text) (e f : GetFault) → is_told e ≡ true → is_told f ≡ true
        → IsRefused (Some folder) dir e → IsRefused (Some folder) dir f → e ≡ f }
{}

/// Law: what the writing of a pack leaves of a folder that showed no name holds the same pack, if no file of the pack
/// has more bytes than are read. That its JSON files are read back is told by [`crate::put_pack`].
pub fn written_folder_holds_the_pack()
    ensures { (folder : Folder) (dir : Text) (w : Written) → is_written w ≡ true → IsListing folder dir []
        → IsReadBack (index_view w.index) → AreWithin (pack_files dir (told_of w))
        → (q : Told) × Holds (put_all (Some folder) (pack_files dir (told_of w))) dir q × same (told_of w) q }
{}

/// Law: the files of a worked pack hold it.
pub fn worked_pack_is_held()
    ensures { (q : Told) × Holds (put_all (Some empty) (pack_files (codes "out") worked_pack)) (codes "out") q
        × same worked_pack q }
{}

/// Law: where the writing of a pack stopped in a folder that showed no name, the folder is refused for its missing
/// `pack.mcmeta`, or all files of the pack are put.
pub fn stopped_folder_holds_no_pack()
    ensures { (folder : Folder) (dir : Text) (w : Written) (after : Option Folder) (path : Text)
        → IsListing folder dir [] → StopsAt (Some folder) after (pack_files dir (told_of w)) path
        → IsRefused after dir get.NoMeta ⊎ (after ≡ put_all (Some folder) (pack_files dir (told_of w))) }
{}

/// Law: the value that is written for an index says it.
pub fn index_says_itself()
    ensures { (i : Index) → is_pack_namespace i.ns ≡ true → index_in (Some (index_data i)) ≡ Some i }
{}
