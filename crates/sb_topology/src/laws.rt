//! Laws over the definitions: what is loaded, and what a `Bundle` keeps, are one meaning of acceptance.

ghost use Rattle.std.specs.Prelude.{◌≡◌, ℕ, List, [], Ok};
ghost use Rattle.sb_packet.specs.Networks.{NetHost, Network};
ghost use Rattle.sb_flow.specs.Accepted.{IsAccepted};
ghost use Rattle.sb_fields.specs.Written.{WrittenBundle};
ghost use Rattle.sb_topology.specs.Bundles.{bundle_of, network_written};
ghost use Rattle.sb_topology.specs.Lines.{hosts_by};
ghost use Rattle.sb_topology.specs.Places.{named_network};

/// A network that a text spells without a fault keeps all that a `Bundle` keeps.
pub fn loaded_networks_are_accepted()
    ensures accepted { (text : List ℕ) (network : Network) → bundle_of text ≡ Ok network → IsAccepted network }
{}

/// Where all names can be looked up and all lines can be read, a network that keeps what a `Bundle` keeps is loaded: no
/// test asks for more.
pub fn accepted_networks_are_loaded()
    ensures loaded { (written : WrittenBundle) (draft : Network) (hosts : List NetHost)
        → named_network written ≡ Ok draft → hosts_by 0 [] written.hosts ≡ Ok hosts
        → IsAccepted (record draft { hosts = hosts })
        → network_written written ≡ Ok (record draft { hosts = hosts }) }
{}
