// Laws of the crates below.
ghost use Rattle.ccelf_build.specs.Laws.{Laws};

use elf_file::{image_has_one_meaning, object_has_one_meaning};
use second_code::{link_faults_are_source_faults, linked_units_load, linked_units_refine};
use text_parser::one_answer;

// What the promises of the commands rest on. It does nothing.
pub(crate) fn laws()
    ensures { Laws }
{
    one_answer();
    object_has_one_meaning();
    image_has_one_meaning();
    linked_units_refine();
    linked_units_load();
    link_faults_are_source_faults();
}
