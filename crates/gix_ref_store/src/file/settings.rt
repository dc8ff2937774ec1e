//! The settings that a lookup takes of a store.

/// The settings of a store. It borrows the fields that they are made of, so that the files of the store can be borrowed beside them.
macro_rules! settings {
    ($store:expr) => {
        gix_ref_lookup::settings::Settings {
            dirs: &$store.dirs,
            namespace: &$store.namespace,
            kind: $store.object_hash,
            prohibit_windows_device_names: $store.prohibit_windows_device_names,
            precompose_unicode: $store.precompose_unicode,
        }
    };
}

pub(crate) use settings;
