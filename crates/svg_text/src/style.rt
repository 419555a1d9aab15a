//! The style sheet: how each class looks, light and dark.
ghost use Rattle.std.specs.Prelude.{◌≡◌, ◌++◌, flat_map, OnOk};
ghost use Rattle.svg_text.specs.Classes.{all_classes};
ghost use Rattle.svg_text.specs.Texts.{light_rule, dark_rule, style_text};

use crate::class::Class;
use crate::looks;
use crate::writing::write;
use linx_base::NoMemory;

fn write_light_rule(out: &mut Vec<u8>, class: Class) -> Result<(), NoMemory>
    ensures { OnOk result (out.new.items ≡ out.old.items ++ light_rule class) }
{
    write(out, b".")?;
    write(out, looks::name(class))?;
    write(out, b"{")?;
    write(out, looks::light(class))?;
    write(out, b"}\n")
}

fn write_dark_rule(out: &mut Vec<u8>, class: Class) -> Result<(), NoMemory>
    ensures { OnOk result (out.new.items ≡ out.old.items ++ dark_rule class) }
{
    write(out, b".")?;
    write(out, looks::name(class))?;
    write(out, b"{")?;
    write(out, looks::dark(class))?;
    write(out, b"}\n")
}

fn write_light_rules(out: &mut Vec<u8>, classes: &[Class]) -> Result<(), NoMemory>
    ensures { OnOk result (out.new.items ≡ out.old.items ++ flat_map light_rule classes.now) }
{
    for class in classes {
        write_light_rule(out, *class)?;
    }
    Ok(())
}

fn write_dark_rules(out: &mut Vec<u8>, classes: &[Class]) -> Result<(), NoMemory>
    ensures { OnOk result (out.new.items ≡ out.old.items ++ flat_map dark_rule classes.now) }
{
    for class in classes {
        write_dark_rule(out, *class)?;
    }
    Ok(())
}

/// The style sheet: how each class looks on a light ground and on a dark one.
#[tactic(auto, unfolding(crate::specs::Texts::style_text))]
pub(crate) fn write_style(out: &mut Vec<u8>) -> Result<(), NoMemory>
    ensures { OnOk result (out.new.items ≡ out.old.items ++ style_text) }
{
    let classes = looks::all();
    write(out, looks::light_ground())?;
    write_light_rules(out, &classes)?;
    write(out, looks::dark_ground())?;
    write_dark_rules(out, &classes)?;
    write(out, b"}\n")
}
