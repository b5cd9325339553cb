//! Which release this is.

/// The version of the program.
pub(crate) const VERSION: &str = "0.4.0";

/// The kit that it is proved with, as `rt version` prints it.
pub(crate) const KIT: &str = "rattle-kit-13f logic dac8208d650f15bf";
