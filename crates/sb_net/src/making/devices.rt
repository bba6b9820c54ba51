//! Devices at their legs.

ghost use Rattle.std.specs.Prelude.{◌≡◌, ◌<◌, [], length, IfOk};
ghost use Rattle.sb_packet.specs.Networks.{opening_memory};
ghost use Rattle.sb_flow.specs.NetworkOf.{network_of};
ghost use Rattle.sb_net.specs.Legs.{AreLegsAt, IsMadeAt};
ghost use Rattle.sb_net.specs.Standing.{device_number};

use sb_device::Device;
use sb_flow::Bundle;
use sb_link::Fabric;
use sb_mem::Memory;
use sb_member::Member;
use sb_port::InLeg;
use std::alloc::{AllocError, Global};

/// A device's memory as it is before the first request.
fn memory_of(alloc: Global, bundle: &Bundle, number: u8) -> Result<Memory, AllocError>
    requires number { number < length (network_of bundle.now).devices }
    ensures memory { IfOk result (λ m. m ≡ opening_memory (network_of bundle.now) number) }
{
    let plan = &bundle.devices[usize::from(number)];
    let memory = Memory::new(
        alloc,
        plan.base,
        plan.pages,
        plan.readonly,
        plan.image.as_slice(),
    )?;
    Ok(memory)
}

/// The device at that place of a bundle, at the one leg that leads to it.
pub fn device_at<F: Fabric>(
    alloc: Global,
    bundle: &Bundle,
    number: u8,
    ins: Vec<InLeg<F>>,
) -> Result<Member<F>, AllocError>
    requires number { number < length (network_of bundle.now).devices }
    requires legs { AreLegsAt F.Tx.TxEnd F.Rx.RxEnd (network_of bundle.now) (device_number (network_of bundle.now) number) [] ins.items }
    ensures made { IfOk result (λ node. IsMadeAt F.Tx.TxEnd F.Rx.RxEnd (network_of bundle.now)
        (device_number (network_of bundle.now) number) [] ins.items node) }
{
    let mut ins = ins;
    let Some(leg) = ins.pop() else { unreachable!() };
    let memory = memory_of(alloc, bundle, number)?;
    let device = Device::new(alloc, number, memory, leg)?;
    Ok(Member::Device(device))
}
