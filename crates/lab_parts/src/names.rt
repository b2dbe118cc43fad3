//! The names of links, by their numbers.
use crate::station::Station;
use pim_scenario::Link;
use pim_types::Series;
use std::alloc::{AllocError, Global};

/// The names of links, in the order of their numbers.
#[derive(Drop)]
pub struct Names {
    names: Vec<String>,
}

impl Names {
    /// The names of the links of these routers.
    pub fn of(alloc: Global, stations: &[Station]) -> Result<Names, AllocError> {
        let mut names = Names {
            names: Vec::new(alloc),
        };
        for station in stations {
            names.add(alloc, station.links.as_slice())?;
        }
        Ok(names)
    }

    // Adds the names that are new.
    fn add(&mut self, alloc: Global, links: &[Link]) -> Result<(), AllocError> {
        for link in links {
            self.number(alloc, link.name.as_str())?;
        }
        Ok(())
    }

    // The number of a name: the next one where it is new.
    fn number(&mut self, alloc: Global, name: &str) -> Result<usize, AllocError> {
        if let Some(number) = self.names.iter().position(|known| known.as_str() == name) {
            return Ok(number);
        }
        let number = self.names.len();
        self.names.push(String::from_str(alloc, name)?)?;
        Ok(number)
    }

    /// The links of these names.
    pub fn links(
        &mut self,
        alloc: Global,
        names: Series<String>,
    ) -> Result<Series<Link>, AllocError> {
        let mut links = Series::new(alloc);
        for name in names.into_vec() {
            let number = self.number(alloc, name.as_str())?;
            links.push(Link { number, name })?;
        }
        Ok(links)
    }
}
