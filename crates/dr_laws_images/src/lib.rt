//! Laws on images, over every script and every stop: how many lines they have, that their text is read back, and that recovery makes of an
//! image what it makes of the devices. Its functions do nothing: each names a law by its contract.
#![tactic(auto)]

ghost use Rattle.std.specs.Prelude.{◌≡◌, ◌≤◌, ◌++◌, ◌∷◌, [], ℕ, Bool, true, List, Option, Ok, All, length};
ghost use Rattle.dr_model.specs.declared.said.Addition.TheVariants.{Alone};
ghost use Rattle.dr_model.specs.declared.said.Said.TheVariants.{Done};
ghost use Rattle.dr_model.specs.Answers.{answer};
ghost use Rattle.dr_model.specs.Layout.{Blocks};
ghost use Rattle.dr_model.specs.Control.{World, Fuse, nothing};
ghost use Rattle.dr_model.specs.Entries.{fields_at};
ghost use Rattle.dr_model.specs.Text.{Heard, text_from};
ghost use Rattle.dr_model.specs.Tables.{Once};
ghost use Rattle.dr_model.specs.Laws.{Sound};
ghost use Rattle.dr_model.specs.PlantImage.{Volume, IsImage, has_source, image_text, reading};
ghost use Rattle.dr_model.specs.Fits.{Fits, on_device};
ghost use Rattle.dr_model.specs.Runs.{Task, image_told, after_task, run};
ghost use Rattle.dr_model.specs.Listed.{ListsAll, Lists, ListsAlong, listing};
ghost use Rattle.dr_laws_sound.specs.Limits.{IsWithin};
ghost use Rattle.dr_laws_recovery.specs.Decided.{record_on};
ghost use Rattle.dr_laws_recovery.specs.Recovered.{HoldsTracks};
ghost use Rattle.dr_laws_images.specs.OneServer.{OneServer};
ghost use Rattle.dr_laws_images.specs.Unbuilt.{NoneUnbuilt};
ghost use Rattle.dr_laws_images.specs.GivesBack.{GivesBack, IsWhole};
ghost use Rattle.dr_laws_images.specs.Imaged.{IsImaged, AllReadBack, LastGivesBack};

/// In a world within its limits, an image that lists as it may tells at most 17,794 events: of 64 volumes a line and at most 277 blocks each,
/// between a first line and a last.
pub fn images_are_short()
    ensures { (w : World) (t : Task) → IsWithin w.control → Lists w t → length (image_told t.listed) ≤ 17794 }
{}

/// In every run no volume is defined twice, and the volumes of a logical subsystem are on one server.
pub fn subsystems_are_on_one_server()
    ensures once { (tasks : List Task) → Once (run tasks).control.volumes }
    ensures server { (tasks : List Task) → OneServer (run tasks).control }
{}

/// An image of a run is read back. With room in the journal for it, it tells the lines of the volumes that it lists, and its answer. What these
/// lines print is the text of the image. Where they are all volumes of the run's world, the image is a proper one, and its text reads as this
/// image: it has no bad line. So it is of each image of a run whose steps list what they may; and of each session recovery makes of it what it
/// would make in the world of the step.
pub fn printed_images_are_read_back()
    ensures tells { (w : World) (t : Task) → IsImaged w t → (after_task w t).events ≡ (w.events ++ image_told t.listed) ++ answer t.line (Done Alone) ∷ [] }
    ensures prints { (told : Heard) (vs : List Volume) → text_from told (image_told vs) ≡ image_text vs }
    ensures image { (tasks : List Task) (vs : List Volume) → ListsAll (run tasks) vs → IsImage vs }
    ensures reads { (tasks : List Task) (vs : List Volume) → ListsAll (run tasks) vs → reading (image_text vs) ≡ Ok vs }
    ensures runs { (tasks : List Task) → ListsAlong nothing tasks → AllReadBack tasks }
{}

/// An image stands for devices: of each session recovery makes of it what it makes of them, the decision, the volumes that remain, their group,
/// and what these show. So it is of an image that lists all volumes of a sound world, beside the records and tracks of that world, and
/// beside the devices of a plant that fits it and holds its tracks; of the image that a run ends with, beside the devices of a plant that
/// fits then; and of devices as they are listed, whose blocks are whole and whose targets have their sources.
pub fn images_stand_for_devices()
    ensures world { (w : World) (vs : List Volume) (s : ℕ) → Sound w → ListsAll w vs → GivesBack w.control (fields_at w.control) w.contents vs s }
    ensures fits { (w : World) (on : ℕ → Bool) (fuse : ℕ → Option Fuse) (device : ℕ → Blocks) (vs : List Volume) (s : ℕ) → Sound w → Fits w on fuse device → HoldsTracks w device → ListsAll w vs →
        GivesBack w.control (record_on w device) (on_device w.control device) vs s }
    ensures last { (tasks : List Task) (on : ℕ → Bool) (fuse : ℕ → Option Fuse) (device : ℕ → Blocks) → ListsAlong nothing tasks → Fits (run tasks) on fuse device → HoldsTracks (run tasks) device → LastGivesBack tasks device }
    ensures devices { (w : World) (device : ℕ → Blocks) (s : ℕ) → IsWhole w.control device → All (λ v. has_source (listing w.control device) v ≡ true) (listing w.control device) →
        GivesBack w.control (record_on w device) (on_device w.control device) (listing w.control device) s }
{}

/// Every step is built: no answer of a run has code 24, which says that it isn't.
pub fn no_step_is_unbuilt()
    ensures { (tasks : List Task) → NoneUnbuilt (run tasks).events }
{}
