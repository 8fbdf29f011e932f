use super::item::put_item;
use super::name::{comma_before, put_name};
use std::alloc::AllocError;
use vlog_tree::{Design, Module};

/// Adds the modules of a design, each item in a line.
pub fn put_design(text: &mut String, design: &Design) -> Result<(), AllocError> {
    for module in design.modules.as_slice() {
        put_module(text, module)?;
    }
    Ok(())
}

fn put_module(text: &mut String, module: &Module) -> Result<(), AllocError> {
    write!(text, "module@{} ", module.at)?;
    put_name(text, &module.name)?;
    text.push_str(" (")?;
    for (number, port) in module.ports.as_slice().iter().enumerate() {
        text.push_str(comma_before(number))?;
        put_name(text, port)?;
    }
    text.push_str(")\n")?;
    for item in module.items.as_slice() {
        put_item(text, item)?;
    }
    Ok(())
}
