//! The data of DNS records, read from one buffer without copies: by the record's type and class, with its text form;
//! types, classes and the other named numbers.
#![tactic(auto)]

pub mod base_text;
pub mod data;
pub mod iana;
pub mod layout;
mod mnemonic;
pub mod rtype_bitmap;
pub mod svc_params;
pub mod tag;
mod text;

pub use base_text::{write_base32hex, write_base64};
pub use data::{Data, layout_of};
pub use iana::{Class, FromStrError, Opcode, Rcode, Rtype};
pub use rtype_bitmap::{RtypeBitmap, RtypeBitmapIter};
pub use svc_params::{AlpnIds, SvcParam, SvcParamIter, SvcParams};
pub use tag::{is_tag, write_tag};
