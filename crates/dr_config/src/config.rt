ghost use Rattle.std.specs.Prelude.{◌≡◌, ◌≢◌, ℕ, ◌<◌, ◌≤◌, ◌+◌, [], true, length, slice_get, Some, Err, IsSome, OnOk, OnErr, IfOk, IfSome, is_some, option_map, if◌then◌else◌};
ghost use Rattle.std.specs.Option.{unwrap_or};
ghost use Rattle.std.specs.Result.{result_err};
ghost use Rattle.dr_ids.specs.Sizes.{blocks_of, most_tracks};
ghost use Rattle.dr_ids.specs.Links.{joins};
ghost use Rattle.dr_ids.specs.Paths.{path_in};
ghost use Rattle.dr_ids.specs.declared.refusal.Fault.TheVariants as fault;
ghost use Rattle.dr_plant.specs.State.{with_device};
ghost use Rattle.dr_config.specs.Links.{none_down};
ghost use Rattle.dr_config.specs.Table.{server_named, place_of, entry_of, server_of, lss_of, lss_owner, link_up, IsName, HasServer, IsSoundConfig, StandsFor};
ghost use Rattle.dr_config.specs.Rules.{is_foreign, refusal_of, server_refusal, volume_refusal, link_refusal, contact_refusal, path_refusal, reach_refusal, with_server, with_volume, with_link, with_path_between, without_path_between};

use crate::entries::{Names, VolumeEntry, add_name, place_of_name};
use crate::links::{Rows, is_down, none_down, set_between};
use crate::paths::{Paths, group_of, put_path, take_path};
use crate::volumes::Volumes;
use dr_ids::{
    Fault, Kind, Lss, MAX_TRACKS, MOST_SERVERS, MOST_VOLUMES, Refusal, ServerId, VolumeId, Which,
    blocks_of,
};
use dr_plant::{DeviceId, Plant};
use indexmap::{IndexMap, IndexSet};
use std::alloc::{AllocError, Global};
use std::marker::Model;

/// Servers and volumes in order of definition, the links between the servers, and the paths between logical
/// subsystems. A server's number is its place, and the number of a volume's device is the volume's place.
#[derive(Drop)]
pub struct Config {
    alloc: Global,
    servers: Names,
    volumes: Volumes,
    down: Rows,
    paths: Paths,
}

impl Model for Config {
    ghost use Rattle.dr_config.specs.Table.{ConfigTable, IsSoundConfig};
    ghost use Rattle.dr_config.specs.Kept.{table_of};

    ghost Value = { ConfigTable };

    ghost view = { λ c. table_of c.servers.keys c.volumes.entries c.down c.paths.entries };

    ghost invariant = { λ c. IsSoundConfig (table_of c.servers.keys c.volumes.entries c.down c.paths.entries) };
}

impl Config {
    /// A configuration with no servers, volumes and paths, and with all links up.
    pub fn new(alloc: Global) -> Self
        ensures empty { result ≡ record { names = []; volumes = []; down = none_down; paths = [] } }
        ensures links { (x y : ℕ) → link_up result x y ≡ true }
    {
        Config {
            alloc,
            servers: IndexSet::new(alloc),
            volumes: Volumes::new(alloc),
            down: none_down(),
            paths: IndexMap::new(alloc),
        }
    }

    /// Defines a server of that name, whose number is the count of servers before it. Refused where
    /// the name is taken, or else where there are 8 servers; fails too where there is no memory. Then
    /// nothing has changed.
    pub fn add_server(&mut self, name: &[u8]) -> Result<ServerId, Fault>
        requires some { 1 ≤ length name.now }
        requires short { length name.now ≤ 24 }
        ensures refused { refusal_of result ≡ server_refusal self.old name.now }
        ensures number { IfOk result (λ s. s.0 ≡ length self.old.names) }
        ensures added { OnOk result (self.new ≡ with_server self.old name.now) }
        ensures same { OnErr result (self.new ≡ self.old) }
    {
        if let Some(why) = self.server_refusal(name) {
            return Err(Fault::Refused(why));
        }
        let number = self.servers.len();
        let Ok(copy) = Vec::from_slice(self.alloc, name) else {
            return Err(Fault::NoMemory);
        };
        let Ok(()) = add_name(&mut self.servers, copy) else {
            return Err(Fault::NoMemory);
        };
        Ok(ServerId(number as u8))
    }

    /// Defines a volume of so many tracks, and adds its device, whose number is the count of volumes
    /// before it. Refused where the identifier is taken, or else where its logical subsystem is
    /// another server's, or else where it has no track or more than 256, or else where there are 64
    /// volumes; fails too where there is no memory. Then nothing has changed, here or in the plant.
    pub fn add_volume<P: Plant>(
        &mut self,
        plant: &mut P,
        id: VolumeId,
        server: ServerId,
        tracks: u16,
    ) -> Result<DeviceId, Fault>
        requires defined { server.0 < length self.old.names }
        requires stands { StandsFor self.old (P.state plant.old) }
        ensures refused { refusal_of result ≡ volume_refusal self.old id.0 server.0 tracks }
        ensures number { IfOk result (λ d. d.0 ≡ length self.old.volumes) }
        ensures added { OnOk result (self.new ≡ with_volume self.old id.0 server.0 tracks) }
        ensures device { OnOk result (P.state plant.new ≡ with_device (P.state plant.old) server.0 (blocks_of tracks)) }
        ensures same { OnErr result (self.new ≡ self.old) }
        ensures same_plant { OnErr result (P.state plant.new ≡ P.state plant.old) }
        ensures stands { StandsFor self.new (P.state plant.new) }
    {
        if let Some(why) = self.volume_refusal(id, server, tracks) {
            return Err(Fault::Refused(why));
        }

        // Room is made first, so that no device is added for which there is no entry.
        let Ok(()) = self.volumes.reserve() else {
            return Err(Fault::NoMemory);
        };

        // The plant has one device for each volume, so it isn't full.
        let Ok(device) = plant.add_device(server.0, blocks_of(tracks)) else {
            return Err(Fault::NoMemory);
        };
        let entry = VolumeEntry {
            id: id.0,
            server: server.0,
            tracks,
        };
        self.volumes.add(entry);
        Ok(device)
    }

    /// The link between two servers is up or down from now on, in both directions. Refused where both are
    /// the same server; then nothing has changed.
    pub fn set_link(&mut self, a: ServerId, b: ServerId, up: bool) -> Result<(), Refusal>
        requires first { a.0 < length self.old.names }
        requires second { b.0 < length self.old.names }
        ensures refused { result_err result ≡ link_refusal a.0 b.0 }
        ensures set { OnOk result (self.new ≡ with_link self.old a.0 b.0 up) }
        ensures links { OnOk result ((x y : ℕ) → link_up self.new x y ≡ (if joins x y a.0 b.0 then up else link_up self.old x y)) }
        ensures same { OnErr result (self.new ≡ self.old) }
    {
        if a.0 == b.0 {
            return Err(Refusal::Duplicate { kind: Kind::Server });
        }
        set_between(&mut self.down, usize::from(a.0), usize::from(b.0), !up);
        Ok(())
    }

    /// Whether the link between two servers is up; from a server to itself it always is.
    pub fn link_up(&self, a: ServerId, b: ServerId) -> bool
        requires first { a.0 < length self.now.names }
        requires second { b.0 < length self.now.names }
        ensures { result ≡ link_up self.now a.0 b.0 }
    {
        !is_down(&self.down, usize::from(a.0), usize::from(b.0))
    }

    /// Defines a path from one logical subsystem to another, with or without a consistency group; one that
    /// is defined keeps its place and gets the new flag. Refused where both have the same server, or else
    /// where the first's server is off, or else where the second's is, or else where the link between them is
    /// down; fails too where there is no memory, which can't be where the path is defined. Then nothing has
    /// changed.
    pub fn add_path<P: Plant>(
        &mut self,
        plant: &P,
        src: Lss,
        tgt: Lss,
        group: bool,
    ) -> Result<(), Fault>
        requires src { IsSome (lss_owner self.old src.0) }
        requires tgt { IsSome (lss_owner self.old tgt.0) }
        ensures refused { refusal_of result ≡ path_refusal self.old (P.state plant.now).on src.0 tgt.0 }
        ensures added { OnOk result (self.new ≡ with_path_between self.old src.0 tgt.0 group) }
        ensures same { OnErr result (self.new ≡ self.old) }
        ensures room { IsSome (path_in self.old.paths src.0 tgt.0) → result ≢ Err fault.NoMemory }
    {
        if let Some(why) = self.path_refusal(plant, src, tgt) {
            return Err(Fault::Refused(why));
        }
        match put_path(&mut self.paths, src, tgt, group) {
            Ok(()) => Ok(()),
            Err(AllocError) => Err(Fault::NoMemory),
        }
    }

    /// The path from one logical subsystem to another is gone; tells whether it was defined. The other paths
    /// keep their order.
    pub fn remove_path(&mut self, src: Lss, tgt: Lss) -> bool
        ensures found { result ≡ is_some (path_in self.old.paths src.0 tgt.0) }
        ensures removed { self.new ≡ without_path_between self.old src.0 tgt.0 }
    {
        take_path(&mut self.paths, src, tgt)
    }

    /// Whether the path from one logical subsystem to another has a consistency group, if it is defined.
    pub fn path(&self, src: Lss, tgt: Lss) -> Option<bool>
        ensures { result ≡ path_in self.now.paths src.0 tgt.0 }
    {
        group_of(&self.paths, src, tgt)
    }

    /// Whether one volume can reach another. Refused where no path goes from the logical subsystem of the
    /// first to that of the second, or else where the second's server is off, or else where the link between
    /// their servers is down.
    pub fn reach<P: Plant>(&self, plant: &P, from: VolumeId, to: VolumeId) -> Result<(), Refusal>
        requires from { IsSome (place_of self.now from.0) }
        requires to { IsSome (place_of self.now to.0) }
        ensures refused { result_err result ≡ reach_refusal self.now (P.state plant.now).on from.0 to.0 }
    {
        if self.path(from.lss(), to.lss()).is_none() {
            return Err(Refusal::Unknown { kind: Kind::Path });
        }
        match self.contact_refusal(plant, self.host(from), self.host(to)) {
            Some(why) => Err(why),
            None => Ok(()),
        }
    }

    // Why a path from one logical subsystem to another is refused, if it is.
    fn path_refusal<P: Plant>(&self, plant: &P, src: Lss, tgt: Lss) -> Option<Refusal>
        requires src { IsSome (lss_owner self.now src.0) }
        requires tgt { IsSome (lss_owner self.now tgt.0) }
        ensures { result ≡ path_refusal self.now (P.state plant.now).on src.0 tgt.0 }
    {
        let a = self.owner(src);
        let b = self.owner(tgt);
        if a.0 == b.0 {
            Some(Refusal::Limit {
                which: Which::Server,
            })
        } else if !plant.is_on(a.0) {
            Some(Refusal::ServerOff { server: a })
        } else {
            self.contact_refusal(plant, a, b)
        }
    }

    // Why server b can't be reached from server a, if it can't.
    fn contact_refusal<P: Plant>(&self, plant: &P, a: ServerId, b: ServerId) -> Option<Refusal>
        requires first { HasServer self.now a.0 }
        requires second { HasServer self.now b.0 }
        ensures { result ≡ contact_refusal self.now (P.state plant.now).on a.0 b.0 }
    {
        if !plant.is_on(b.0) {
            Some(Refusal::ServerOff { server: b })
        } else if !self.link_up(a, b) {
            Some(Refusal::LinkDown { a, b })
        } else {
            None
        }
    }

    // The server of a logical subsystem that has one.
    fn owner(&self, l: Lss) -> ServerId
        requires { IsSome (lss_owner self.now l.0) }
        ensures value { result.0 ≡ unwrap_or (lss_owner self.now l.0) 0 }
        ensures defined { HasServer self.now result.0 }
    {
        self.lss_owner(l).unwrap()
    }

    // The server of a volume that is defined.
    fn host(&self, v: VolumeId) -> ServerId
        requires { IsSome (place_of self.now v.0) }
        ensures value { result.0 ≡ unwrap_or (server_of self.now v.0) 0 }
        ensures defined { HasServer self.now result.0 }
    {
        self.server_of(v).unwrap()
    }

    // Why a server of that name is refused, if it is.
    fn server_refusal(&self, name: &[u8]) -> Option<Refusal>
        ensures { result ≡ server_refusal self.now name.now }
    {
        if self.server_named(name).is_some() {
            Some(Refusal::Duplicate { kind: Kind::Server })
        } else if MOST_SERVERS <= self.servers.len() {
            Some(Refusal::Limit {
                which: Which::Servers,
            })
        } else {
            None
        }
    }

    // Why such a volume is refused, if it is.
    fn volume_refusal(&self, id: VolumeId, server: ServerId, tracks: u16) -> Option<Refusal>
        ensures { result ≡ volume_refusal self.now id.0 server.0 tracks }
    {
        if self.volumes.place(id.0).is_some() {
            Some(Refusal::Duplicate { kind: Kind::Volume })
        } else if self.is_foreign(id, server) {
            Some(Refusal::Duplicate { kind: Kind::Lss })
        } else if tracks == 0 || MAX_TRACKS < tracks {
            Some(Refusal::Limit {
                which: Which::Tracks,
            })
        } else if MOST_VOLUMES <= self.volumes.len() {
            Some(Refusal::Limit {
                which: Which::Volumes,
            })
        } else {
            None
        }
    }

    // Whether the logical subsystem of that volume has another server.
    fn is_foreign(&self, id: VolumeId, server: ServerId) -> bool
        ensures { result ≡ is_foreign (lss_owner self.now (lss_of id.0)) server.0 }
    {
        match self.lss_owner(id.lss()) {
            Some(owner) => owner.0 != server.0,
            None => false,
        }
    }

    /// The number of the server of that name, if there is one.
    pub fn server_named(&self, name: &[u8]) -> Option<ServerId>
        ensures place { option_map (λ s. s.0) result ≡ server_named self.now name.now }
        ensures sound { IsSoundConfig self.now }
        ensures defined { IfSome result (λ s. HasServer self.now s.0) }
    {
        let place = place_of_name(&self.servers, name)?;
        Some(ServerId(place as u8))
    }

    /// The name of a server.
    pub fn name(&self, s: ServerId) -> &[u8]
        requires { s.0 < length self.now.names }
        ensures value { slice_get self.now.names s.0 ≡ Some result.now }
        ensures fits { IsName result.now }
    {
        self.servers[usize::from(s.0)].as_slice()
    }

    /// The device of a volume, if it is defined.
    pub fn device_of(&self, v: VolumeId) -> Option<DeviceId>
        ensures place { option_map (λ d. d.0) result ≡ place_of self.now v.0 }
        ensures within { IfSome result (λ d. d.0 < length self.now.volumes) }
    {
        let place = self.volumes.place(v.0)?;
        Some(DeviceId(place as u16))
    }

    /// The server of a volume, if it is defined.
    pub fn server_of(&self, v: VolumeId) -> Option<ServerId>
        ensures value { option_map (λ s. s.0) result ≡ option_map (λ e. e.server) (entry_of self.now v.0) }
        ensures defined { IfSome result (λ s. HasServer self.now s.0) }
    {
        let entry = self.volumes.get(v.0)?;
        Some(ServerId(entry.server))
    }

    /// How many tracks a volume has, if it is defined.
    pub fn tracks_of(&self, v: VolumeId) -> Option<u16>
        ensures value { result ≡ option_map (λ e. e.tracks) (entry_of self.now v.0) }
        ensures some { IfSome result (λ n. 1 ≤ n) }
        ensures most { IfSome result (λ n. n ≤ most_tracks) }
    {
        let entry = self.volumes.get(v.0)?;
        Some(entry.tracks)
    }

    /// The volume that was defined after `i` others, if there are so many.
    pub fn volume_at(&self, i: usize) -> Option<VolumeId>
        ensures value { option_map (λ v. v.0) result ≡ option_map (λ e. e.id) (slice_get self.now.volumes i) }
        ensures place { IfSome result (λ v. place_of self.now v.0 ≡ Some i) }
    {
        let entry = self.volumes.at(i)?;
        Some(VolumeId(entry.id))
    }

    /// The server of the volumes of a logical subsystem, if it has any.
    pub fn lss_owner(&self, l: Lss) -> Option<ServerId>
        ensures value { option_map (λ s. s.0) result ≡ lss_owner self.now l.0 }
        ensures defined { IfSome result (λ s. HasServer self.now s.0) }
        ensures sound { IsSoundConfig self.now }
    {
        let entry = self.volumes.first_of(l.0)?;
        Some(ServerId(entry.server))
    }

    /// How many servers there are.
    pub fn servers(&self) -> usize
        ensures count { result ≡ length self.now.names }
        ensures sound { IsSoundConfig self.now }
    {
        self.servers.len()
    }

    /// How many volumes there are.
    pub fn volumes(&self) -> usize
        ensures count { result ≡ length self.now.volumes }
        ensures sound { IsSoundConfig self.now }
    {
        self.volumes.len()
    }
}
