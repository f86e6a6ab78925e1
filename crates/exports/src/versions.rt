// Which version the archive is: major times 10,000, and minor times 100, and patch.
#[unsafe(no_mangle)]
pub extern "C" fn sendai_version() -> u32 {
    version::VERSION
}
