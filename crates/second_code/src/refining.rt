// That linked units do what they mean.
ghost use Rattle.std.specs.Prelude.{◌≡◌, ◌≢◌, ℕ, List, All, None};
ghost use Rattle.cc_base.specs.declared.run.Outcome.TheVariants.{Wrong};
ghost use Rattle.second_form.specs.declared.second_items.Item.{Item};
ghost use Rattle.second_form.specs.SecondFaults.{Linkable, source_fault};
ghost use Rattle.second_form.specs.SecondRun.{second_after};
ghost use Rattle.elf_file.specs.declared.image.ImageParts.{ImageParts};
ghost use Rattle.elf_linker.specs.Linked.{Linked};
ghost use Rattle.elf_linker.specs.Names.{link_fault};
ghost use Rattle.elf_loader.specs.Load.{image_after, load_fault};
ghost use Rattle.pass_core.specs.Refines.{Refines};
ghost use Rattle.second_code.specs.FoundFaults.{IsFoundAs};
ghost use Rattle.second_code.specs.LinkedObjects.{IsUnit, linked_objects};
ghost use Rattle.second_code.specs.TwoUnits.{two_units, two_units_image};

/// Where an image is linked from the objects of units of the second form, the runtime behind them, it does on every
/// input what the linked units mean. Each object is made from its unit alone.
pub fn linked_units_refine()
    ensures { (units : List (List Item)) (image : ImageParts) → All IsUnit units → Linked (linked_objects units) image → link_fault (linked_objects units) ≡ None → (input : List ℕ) → Refines (second_after units) (image_after image input) }
{}

/// Such an image can be loaded: its segment lies in the addresses of images, and it has the entry.
pub fn linked_units_load()
    ensures { (units : List (List Item)) (image : ImageParts) → All IsUnit units → Linked (linked_objects units) image → link_fault (linked_objects units) ≡ None → load_fault image ≡ None }
{}

/// Where nothing is wrong with the names of these objects, the units are a program, which never goes wrong.
pub fn linked_units_are_linkable()
    // No two units show one name, and a name that one of them wants is shown, as `main` is.
    ensures linkable { (units : List (List Item)) → All IsUnit units → link_fault (linked_objects units) ≡ None → Linkable units }
    ensures right { (units : List (List Item)) → All IsUnit units → link_fault (linked_objects units) ≡ None → (turns : ℕ) → (second_after units turns).outcome ≢ Wrong }
{}

/// What the linker finds wrong with the names of these objects is what is wrong with those of the units: the same fault,
/// in the same unit, of the same name. Where nothing is wrong with the units it finds nothing but too many bytes.
pub fn link_faults_are_source_faults()
    ensures { (units : List (List Item)) → All IsUnit units → IsFoundAs (linked_objects units) (source_fault units) (link_fault (linked_objects units)) }
{}

/// A worked example, which meets what `linked_units_refine` asks: the image of two units.
pub fn two_units_are_linked()
    // The image is linked from the objects of the units, and nothing is wrong with their names.
    ensures linked { Linked (linked_objects two_units) two_units_image }
    ensures no_fault { link_fault (linked_objects two_units) ≡ None }
{}
