//! The objects of a bundle, field by field.

ghost use Rattle.std.specs.Prelude.{◌≡◌, ◌≢◌, IfOk, IfErr, Ok, Err};
ghost use Rattle.serde_json.specs.View.{view};
ghost use Rattle.sb_fields.specs.declared.fault.LoadFault.TheVariants as faults;
ghost use Rattle.sb_fields.specs.Objects.{bundle_fields as bundle_by, bundle_in, device_fields as device_by, device_in, host_fields as host_by, host_in, link_fields as link_by, link_in, router_fields as router_by, router_in};
ghost use Rattle.sb_fields.specs.Written.{WrittenDevice, WrittenHost, WrittenLink, WrittenRouter};
ghost use Rattle.sb_fields.specs.Held.{written_bundle, written_device, written_host, written_link, written_router};

use crate::fault::LoadFault;
use crate::parts::{Part, listed, routes, texts};
use crate::texts::{BundleText, DeviceText, HostText, LinkText, RouterText};
use crate::values::{
    an_object, number, numeral_text, only_fields, optional_bytes, optional_number, optional_text,
    optional_truth, text,
};
use serde_json::Value;
use std::alloc::Global;

#[tactic(auto, unfolding(crate::specs::Objects::host_fields))]
fn host_fields<'v>(alloc: Global, at: &str, value: &'v Value) -> Result<HostText<'v>, LoadFault>
    ensures ok { IfOk result (λ host. host_by at.now (view value.now) ≡ Ok (written_host host)) }
    ensures err { IfErr result (λ fault. fault ≢ faults.Memory → (host_by at.now (view value.now) ≡ Err fault)) }
{
    let name = text(alloc, at, "name", value)?;
    let id = number(alloc, at, "id", value)?;
    let qos = optional_number(alloc, at, "qos", value)?;
    let prot = optional_number(alloc, at, "prot", value)?;
    let script = texts(alloc, at, "script", value)?;
    Ok(HostText {
        name,
        id,
        qos: qos.unwrap_or(0),
        prot: prot.unwrap_or(0),
        script,
    })
}

#[tactic(auto, unfolding(crate::specs::Fields::object_with))]
impl<'v> Part<'v> for HostText<'v> {
    ghost Written = { WrittenHost };

    ghost written = { written_host };

    ghost reads = { host_in };

    fn read(alloc: Global, at: &str, value: &'v Value) -> Result<HostText<'v>, LoadFault> {
        let object = an_object(alloc, at, value)?;
        let host = host_fields(alloc, at, value)?;
        match only_fields(alloc, at, &["name", "id", "qos", "prot", "script"], object) {
            Ok(()) => Ok(host),
            Err(fault) => Err(fault),
        }
    }
}

#[tactic(auto, unfolding(crate::specs::Objects::router_fields))]
fn router_fields<'v>(alloc: Global, at: &str, value: &'v Value) -> Result<RouterText<'v>, LoadFault>
    ensures ok { IfOk result (λ router. router_by at.now (view value.now) ≡ Ok (written_router router)) }
    ensures err { IfErr result (λ fault. fault ≢ faults.Memory → (router_by at.now (view value.now) ≡ Err fault)) }
{
    let name = text(alloc, at, "name", value)?;
    let side = optional_number(alloc, at, "side", value)?;
    let routes = routes(alloc, at, value)?;
    Ok(RouterText {
        name,
        side: side.unwrap_or(0),
        routes,
    })
}

#[tactic(auto, unfolding(crate::specs::Fields::object_with))]
impl<'v> Part<'v> for RouterText<'v> {
    ghost Written = { WrittenRouter };

    ghost written = { written_router };

    ghost reads = { router_in };

    fn read(alloc: Global, at: &str, value: &'v Value) -> Result<RouterText<'v>, LoadFault> {
        let object = an_object(alloc, at, value)?;
        let router = router_fields(alloc, at, value)?;
        match only_fields(alloc, at, &["name", "side", "routes"], object) {
            Ok(()) => Ok(router),
            Err(fault) => Err(fault),
        }
    }
}

#[tactic(auto, unfolding(crate::specs::Objects::device_fields))]
fn device_fields<'v>(alloc: Global, at: &str, value: &'v Value) -> Result<DeviceText<'v>, LoadFault>
    ensures ok { IfOk result (λ device. device_by at.now (view value.now) ≡ Ok (written_device device)) }
    ensures err { IfErr result (λ fault. fault ≢ faults.Memory → (device_by at.now (view value.now) ≡ Err fault)) }
{
    let name = text(alloc, at, "name", value)?;
    let base = numeral_text(alloc, at, "base", value)?;
    let pages = number(alloc, at, "pages", value)?;
    let readonly = match optional_truth(alloc, at, "readonly", value) {
        Ok(readonly) => readonly,
        Err(fault) => return Err(fault),
    };
    let image = optional_bytes(alloc, at, "image", value)?;
    Ok(DeviceText {
        name,
        base,
        pages,
        readonly: readonly.unwrap_or(false),
        image: image.unwrap_or(Vec::new(alloc)),
    })
}

#[tactic(auto, unfolding(crate::specs::Fields::object_with))]
impl<'v> Part<'v> for DeviceText<'v> {
    ghost Written = { WrittenDevice };

    ghost written = { written_device };

    ghost reads = { device_in };

    fn read(alloc: Global, at: &str, value: &'v Value) -> Result<DeviceText<'v>, LoadFault> {
        let object = an_object(alloc, at, value)?;
        let device = device_fields(alloc, at, value)?;
        match only_fields(
            alloc,
            at,
            &["name", "base", "pages", "readonly", "image"],
            object,
        ) {
            Ok(()) => Ok(device),
            Err(fault) => Err(fault),
        }
    }
}

#[tactic(auto, unfolding(crate::specs::Objects::link_fields))]
fn link_fields<'v>(alloc: Global, at: &str, value: &'v Value) -> Result<LinkText<'v>, LoadFault>
    ensures ok { IfOk result (λ link. link_by at.now (view value.now) ≡ Ok (written_link link)) }
    ensures err { IfErr result (λ fault. fault ≢ faults.Memory → (link_by at.now (view value.now) ≡ Err fault)) }
{
    let name = text(alloc, at, "name", value)?;
    let from = text(alloc, at, "from", value)?;
    let to = text(alloc, at, "to", value)?;
    let width = number(alloc, at, "width", value)?;
    let capacity = number(alloc, at, "capacity", value)?;
    Ok(LinkText {
        name,
        from,
        to,
        width,
        capacity,
    })
}

#[tactic(auto, unfolding(crate::specs::Fields::object_with))]
impl<'v> Part<'v> for LinkText<'v> {
    ghost Written = { WrittenLink };

    ghost written = { written_link };

    ghost reads = { link_in };

    fn read(alloc: Global, at: &str, value: &'v Value) -> Result<LinkText<'v>, LoadFault> {
        let object = an_object(alloc, at, value)?;
        let link = link_fields(alloc, at, value)?;
        match only_fields(
            alloc,
            at,
            &["name", "from", "to", "width", "capacity"],
            object,
        ) {
            Ok(()) => Ok(link),
            Err(fault) => Err(fault),
        }
    }
}

#[tactic(auto, unfolding(crate::specs::Objects::bundle_fields))]
fn bundle_fields<'v>(alloc: Global, at: &str, value: &'v Value) -> Result<BundleText<'v>, LoadFault>
    ensures ok { IfOk result (λ bundle. bundle_by at.now (view value.now) ≡ Ok (written_bundle bundle)) }
    ensures err { IfErr result (λ fault. fault ≢ faults.Memory → (bundle_by at.now (view value.now) ≡ Err fault)) }
{
    let version = number(alloc, at, "version", value)?;
    let hosts = listed::<HostText<'_>>(alloc, at, "hosts", value)?;
    let routers = listed::<RouterText<'_>>(alloc, at, "routers", value)?;
    let devices = listed::<DeviceText<'_>>(alloc, at, "devices", value)?;
    let links = listed::<LinkText<'_>>(alloc, at, "links", value)?;
    let wire = optional_text(alloc, at, "wire", value)?;
    Ok(BundleText {
        version,
        hosts,
        routers,
        devices,
        links,
        wire,
    })
}

/// The fields of a bundle.
#[tactic(auto, unfolding(crate::specs::Fields::object_with))]
pub fn bundle_text(alloc: Global, value: &Value) -> Result<BundleText<'_>, LoadFault>
    ensures ok { IfOk result (λ bundle. bundle_in (view value.now) ≡ Ok (written_bundle bundle)) }
    ensures err { IfErr result (λ fault. fault ≢ faults.Memory → (bundle_in (view value.now) ≡ Err fault)) }
{
    let object = an_object(alloc, "", value)?;
    let bundle = bundle_fields(alloc, "", value)?;
    match only_fields(
        alloc,
        "",
        &["version", "hosts", "routers", "devices", "links", "wire"],
        object,
    ) {
        Ok(()) => Ok(bundle),
        Err(fault) => Err(fault),
    }
}
